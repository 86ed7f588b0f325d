ghost use Rattle.std.specs.Prelude.{◌≡◌, ◌+◌, ◌%◌, ◌^◌, ◌<◌};

// How many products were asked for, modulo 2^64.
#[derive(Drop, Clone, Copy)]
pub struct Tally {
    count: u64,
    ghost fits: { count < 2 ^ 64 },
}

impl Tally {
    pub fn new() -> Tally
        ensures value { result.count ≡ 0 }
    {
        Tally { count: 0 }
    }

    // One product more.
    pub fn raise(&mut self)
        ensures after { self.new.count ≡ (self.old.count + 1) % 2 ^ 64 }
    {
        self.count = self.count.wrapping_add(1);
    }

    pub fn value(&self) -> u64
        ensures value { result ≡ self.now.count }
    {
        self.count
    }
}
