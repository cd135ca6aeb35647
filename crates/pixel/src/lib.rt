// The nearest whole pixel of an edge, halves up, by the edge's bits alone.
#![tactic(auto)]

ghost use Rattle.std.specs.Prelude.{◌≡◌, false, ◌+◌, ◌*◌, ◌-◌, ◌/◌, ◌^◌, ◌<◌, ◌≤◌, ◌-ℤ◌};
ghost use Rattle.limits.specs.Limits.{too_large};
ghost use Rattle.pixel.specs.Pixel.{whole_pixel};

// q / 2^d to the nearest whole number; at a half up where s is 0, and down where s is 1.
fn rounded(q: u32, d: u32, s: u32) -> u32
    requires { (q < 2 ^ 24) × (d ≤ 24) × (s ≤ 1) }
    ensures { (result ≡ (2 * q + 2 ^ d - s) / 2 ^ (d + 1)) × (result ≤ 2 ^ 24) }
{
    (2 * q + (1u32 << d) - s) >> (d + 1)
}

// The nearest whole pixel of an edge; a half goes up.
pub fn whole_pixel(e: f32) -> i32
    requires { too_large e ≡ false }
    ensures { result ≡ whole_pixel e }
{
    let bits = f32::to_bits(e);
    let sign = bits / 0x8000_0000;
    let field = bits % 0x8000_0000 / 0x80_0000;
    let digits = bits % 0x80_0000;
    // a magnitude below a half
    if field < 126 {
        return 0;
    }
    let n = rounded(digits + 0x80_0000, 150 - field, sign);
    if sign == 0 { n as i32 } else { 0 - (n as i32) }
}

// The size between two edges: the difference of their whole pixels.
pub fn pixels_between(near: f32, far: f32) -> i32
    requires { (too_large near ≡ false) × (too_large far ≡ false) }
    ensures { result ≡ whole_pixel far -ℤ whole_pixel near }
{
    let a = whole_pixel(near);
    let b = whole_pixel(far);
    b - a
}
