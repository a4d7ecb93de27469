// A bank of registers: bytes by name, pairs of them as addresses, and the flags.
ghost use Rattle.std.specs.Prelude.{◌≡◌, ℕ, ◌+◌, ◌*◌, ◌/◌, ◌%◌};
ghost use Rattle.registers.specs.Banks.{value_in, with_value, pair_in, with_pair, flag_in, holds_of};

#[derive(Clone, Copy)]
pub enum Register {
    A,
    B,
    C,
    D,
    E,
    H,
    L,
    X,
}

// Two registers as 16 bits, the high byte first.
#[derive(Clone, Copy)]
pub enum Pair {
    XA,
    BC,
    DE,
    HL,
}

#[derive(Clone, Copy)]
pub enum Flag {
    Carry,
    Zero,
    Sign,
    Parity,
}

// What a conditional instruction asks of the flags: that one of them is set, or that it is clear.
#[derive(Clone, Copy)]
pub struct Condition {
    pub flag: Flag,
    pub set: bool,
}

#[derive(Clone, Copy, Default)]
pub struct Flags {
    pub carry: bool,
    pub zero: bool,
    pub sign: bool,
    pub parity: bool,
}

#[derive(Clone, Copy, Default)]
pub struct Bank {
    pub a: u8,
    pub b: u8,
    pub c: u8,
    pub d: u8,
    pub e: u8,
    pub h: u8,
    pub l: u8,
    pub x: u8,
    pub flags: Flags,
}

impl Flags {
    pub fn get(self, flag: Flag) -> bool
        ensures { result ≡ flag_in self flag }
    {
        match flag {
            Flag::Carry => self.carry,
            Flag::Zero => self.zero,
            Flag::Sign => self.sign,
            Flag::Parity => self.parity,
        }
    }
}

impl Condition {
    pub fn holds(self, flags: Flags) -> bool
        ensures { result ≡ holds_of self flags }
    {
        flags.get(self.flag) == self.set
    }
}

impl Bank {
    pub fn get(&self, r: Register) -> u8
        ensures { result ≡ value_in self.now r }
    {
        match r {
            Register::A => self.a,
            Register::B => self.b,
            Register::C => self.c,
            Register::D => self.d,
            Register::E => self.e,
            Register::H => self.h,
            Register::L => self.l,
            Register::X => self.x,
        }
    }

    pub fn put(&mut self, r: Register, v: u8)
        ensures { self.new ≡ with_value self.old r v }
    {
        match r {
            Register::A => self.a = v,
            Register::B => self.b = v,
            Register::C => self.c = v,
            Register::D => self.d = v,
            Register::E => self.e = v,
            Register::H => self.h = v,
            Register::L => self.l = v,
            Register::X => self.x = v,
        }
    }

    pub fn pair(&self, p: Pair) -> u16
        ensures { result ≡ pair_in self.now p }
    {
        let (high, low) = match p {
            Pair::XA => (self.x, self.a),
            Pair::BC => (self.b, self.c),
            Pair::DE => (self.d, self.e),
            Pair::HL => (self.h, self.l),
        };
        u16::from_be_bytes([high, low])
    }

    pub fn put_pair(&mut self, p: Pair, v: u16)
        ensures { self.new ≡ with_pair self.old p v }
    {
        let [high, low] = v.to_be_bytes();
        match p {
            Pair::XA => {
                self.x = high;
                self.a = low;
            }
            Pair::BC => {
                self.b = high;
                self.c = low;
            }
            Pair::DE => {
                self.d = high;
                self.e = low;
            }
            Pair::HL => {
                self.h = high;
                self.l = low;
            }
        }
    }
}
