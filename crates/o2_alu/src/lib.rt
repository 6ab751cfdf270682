//! Results and flags of the 80286's arithmetic, equal to the definitions of `o2_isa`.
#![tactic(auto)]

mod decimal;
mod flags;
mod laws;
mod products;
mod shifts;
mod sums;
mod widths;

pub use decimal::adjust;
pub use flags::{bit_number, is_set, with_flag};
pub use laws::{
    aad_undoes_aam, adc_chains, cmp_compares, control_flags_stay, daa_adds, das_subtracts,
    div_divides, flag_is_put, idiv_divides, imul_multiplies, inc_and_dec_keep_carry,
    neg_is_zero_minus, rotation_returns, sbb_chains, shift_repeats, shl_multiplies,
};
pub use products::{div, mul, mul_low};
pub use shifts::shift;
pub use sums::{add, binary, complement, decrement, increment, logic, negate, sub, unary};
pub use widths::signed_value;
