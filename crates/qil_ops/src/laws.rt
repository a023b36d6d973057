//! Laws about what the operations are defined by, each the contract of a function that does nothing.

ghost use Rattle.std.specs.Prelude.{◌≡◌, ◌≢◌, ℕ, ◌+◌, ◌%◌, ◌-◌, ◌^◌, ◌≤◌, min, max, ℤ, pos, ◌-ℤ◌, ◌≤ℤ◌, ◌<ℤ◌, int_div, int_rem, bit_and, bit_or, bit_xor, ◌<◌, nat_lt, if◌then◌else◌};
ghost use Rattle.std.specs.Int.{bit_at};
ghost use Rattle.qil_ops.specs.Values.{low_bits, as_signed, as_bits};
ghost use Rattle.qil_ops.specs.Division.{IsTruncated};
ghost use Rattle.qil_ops.specs.Operations.{shifted_left, shifted_right, sign_shifted_right};

/// `div` truncates toward zero, and `rem` is what it leaves.
pub fn quotient_truncates()
    ensures { (a b : ℤ) → b ≢ pos 0 → IsTruncated a b (int_div a b) (int_rem a b) }
{}

/// Two's complement: the signed value of n bits lies from -2^(n-1) to 2^(n-1) - 1, and has these n bits.
pub fn signed_value()
    ensures bits { (n v : ℕ) → 1 ≤ n → as_bits n (as_signed n v) ≡ low_bits n v }
    ensures low { (n v : ℕ) → 1 ≤ n → (pos 0 -ℤ pos (2 ^ (n - 1))) ≤ℤ as_signed n v }
    ensures high { (n v : ℕ) → 1 ≤ n → as_signed n v <ℤ pos (2 ^ (n - 1)) }
{}

/// `and`, `or` and `xor` go bit by bit.
pub fn bit_by_bit()
    ensures and { (a b i : ℕ) → bit_at (bit_and a b) i ≡ min (bit_at a i) (bit_at b i) }
    ensures or { (a b i : ℕ) → bit_at (bit_or a b) i ≡ max (bit_at a i) (bit_at b i) }
    ensures xor { (a b i : ℕ) → bit_at (bit_xor a b) i ≡ (bit_at a i + bit_at b i) % 2 }
{}

/// Zeros come in at the right of `shl` and at the left of `shr`, and copies of the sign bit at the left of `sar`.
pub fn shifted_bits()
    ensures shl { (n a k i : ℕ) → i < n → bit_at (shifted_left n a k) i ≡ (if nat_lt i k then 0 else bit_at a (i - k)) }
    ensures shr { (n a k i : ℕ) → i < n → bit_at (shifted_right n a k) i ≡ (if nat_lt (i + k) n then bit_at a (i + k) else 0) }
    ensures sar { (n a k i : ℕ) → i < n → k < n → bit_at (sign_shifted_right n a k) i ≡ (if nat_lt (i + k) n then bit_at a (i + k) else bit_at a (n - 1)) }
{}
