// Worked cases of the meanings, and a small image to try them with.
#![tactic(auto)]

ghost use Rattle.std.specs.Prelude.{◌≡◌};
ghost use Rattle.cases.specs.Cases.{Worked};
ghost use Rattle.cases.specs.Samples.{sample_bytes, Halts};

// The bytes of the image, one by one.
fn sample() -> [u8; 31]
    ensures { result ≡ sample_bytes }
{
    [
        b'D', b'P', b'J', 0, 1, 60, 84, 0, 0, 0, 0, 0, 0, 0, 0, 0, 0, 0, 0, 0, 0, 0, 0, 0, 0, 5,
        0o006, 0o005, 0o004, 0o003, 0o000,
    ]
}

// An image that adds 5 and 3 and halts: 31 bytes. What the worked cases say holds.
pub fn sample_image() -> [u8; 31]
    ensures bytes { result ≡ sample_bytes }
    ensures halts { Halts result }
    ensures worked { Worked }
{
    sample()
}
