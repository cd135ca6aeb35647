// Whole numbers in f32: the test for one up to 1024 in size.
#![tactic(auto)]

ghost use Rattle.std.specs.Prelude.{◌≡◌};
ghost use Rattle.whole.specs.Test.{pixel};

// A whole number from -1024 to 1024? From 2 ^ 23 on an f32 has no fraction, so the first sum drops x's, if it has one.
pub fn is_pixel(x: f32) -> bool
    ensures { result ≡ pixel x }
{
    if x >= -1024.0 {
        if x <= 1024.0 {
            return x == (x + 12582912.0) - 12582912.0;
        }
    }
    false
}
