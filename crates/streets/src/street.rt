// A street by value.
ghost use Rattle.std.specs.Prelude.{◌≡◌, if◌then◌else◌, nat_eq};
ghost use Rattle.streets.specs.Streets.{joining};
ghost use Rattle.streets.specs.Meaning.{as_street};

// Its two ends may be one corner.
#[derive(Clone, Copy, Debug, PartialEq, Eq, Hash)]
pub struct Street {
    pub one: u16,
    pub other: u16,
    pub long: u32,
}

impl Street {
    pub fn new(one: u16, other: u16, long: u32) -> Street
        ensures { as_street result ≡ joining one other long }
    {
        Street { one, other, long }
    }

    // The end that lies across from c.
    pub fn across(self, c: u16) -> u16
        ensures { result ≡ (if nat_eq self.one c then self.other else self.one) }
    {
        if self.one == c { self.other } else { self.one }
    }
}
