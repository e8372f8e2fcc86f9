// Rounding and the square root under names that Rust can link, to measure them.
#![tactic(auto)]

ghost use Rattle.std.specs.Prelude.{◌≡◌};
ghost use Rattle.definitions.specs.Real.{round_away, sqrt as sqrt_f};

use math_round::round;
use math_sqrt::sqrt;

#[unsafe(no_mangle)]
pub extern "C" fn speed_float_round(x: f64) -> f64
    ensures { result ≡ round_away x }
{
    round(x)
}

#[unsafe(no_mangle)]
pub extern "C" fn speed_float_sqrt(x: f64) -> f64
    ensures { result ≡ sqrt_f x }
{
    sqrt(x)
}
