//! Powers of two and masks.
ghost use Rattle.std.specs.Prelude.{◌≡◌, ◌≤◌, ◌+◌, ◌-◌, ◌^◌};
ghost use Rattle.cw_word.specs.BitField.{field_mask};

/// A power of two.
pub(crate) fn power(n: u8) -> u16
    requires { n ≤ 15 }
    ensures { result ≡ 2 ^ n }
{
    1 << n
}

/// A word with so many bits set, from bit 0.
pub(crate) fn ones(t: u8) -> u16
    requires { t ≤ 16 }
    ensures { result ≡ 2 ^ t - 1 }
{
    if t == 16 { 65_535 } else { power(t) - 1 }
}

/// A word with the bits of a part set.
pub(crate) fn mask(t: u8, b: u8) -> u16
    requires some { 1 ≤ t }
    requires within { t + b ≤ 16 }
    ensures { result ≡ field_mask t b }
{
    ones(t) << b
}
