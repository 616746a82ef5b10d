// The arithmetic and logic operations.
ghost use Rattle.std.specs.Prelude.{◌≡◌, ◌≢◌, pos, ◌*ℤ◌};
ghost use Rattle.std.specs.Int.RustNames.{int_div, int_rem};
ghost use Rattle.rv_code.specs.isa.TwosComplement.{unsigned64, low32, signed32, sign_extended32};
ghost use Rattle.rv_code.specs.isa.Op.{apply, upper64};

/// An operation on two 64-bit numbers. Instructions with an immediate share it: `ADDI` is `Add` of a register and a
/// constant. Operations whose names end in `w` work on the low 32 bits and sign-extend. ISA manual, sections 2.4, 4.2,
/// 13.1 and 13.2.
#[derive(Clone, Copy)]
pub enum Op {
    Add,
    Sub,
    Sll,
    Slt,
    Sltu,
    Xor,
    Srl,
    Sra,
    Or,
    And,
    Mul,
    Mulh,
    Mulhsu,
    Mulhu,
    Div,
    Divu,
    Rem,
    Remu,
    Addw,
    Subw,
    Sllw,
    Srlw,
    Sraw,
    Mulw,
    Divw,
    Divuw,
    Remw,
    Remuw,
}

impl Op {
    /// The result of the operation on two 64-bit numbers. Nothing traps: the quotient of a division by zero has all
    /// bits set, and the remainder is the dividend.
    pub fn apply(self, left: u64, right: u64) -> u64
        ensures { result ≡ apply self left right }
    {
        match self {
            Op::Add => left.wrapping_add(right),
            Op::Sub => left.wrapping_sub(right),
            Op::Sll => left << (right % 64),
            Op::Slt => u64::from(left.cast_signed() < right.cast_signed()),
            Op::Sltu => u64::from(left < right),
            Op::Xor => left ^ right,
            Op::Srl => left >> (right % 64),
            Op::Sra => (left.cast_signed() >> (right % 64)).cast_unsigned(),
            Op::Or => left | right,
            Op::And => left & right,
            Op::Mul => left.wrapping_mul(right),
            Op::Mulh => mulh(left, right),
            Op::Mulhsu => mulhsu(left, right),
            Op::Mulhu => mulhu(left, right),
            Op::Div => div(left, right),
            Op::Divu => divu(left, right),
            Op::Rem => rem(left, right),
            Op::Remu => remu(left, right),
            Op::Addw => sign_extend32(left.wrapping_add(right)),
            Op::Subw => sign_extend32(left.wrapping_sub(right)),
            Op::Sllw => sign_extend32(low32(left) << (right % 32)),
            Op::Srlw => sign_extend32(low32(left) >> (right % 32)),
            Op::Sraw => (signed32(left) >> (right % 32)).cast_unsigned(),
            Op::Mulw => sign_extend32(left.wrapping_mul(right)),
            Op::Divw => divw(left, right),
            Op::Divuw => divuw(left, right),
            Op::Remw => remw(left, right),
            Op::Remuw => remuw(left, right),
        }
    }
}

fn mulh(left: u64, right: u64) -> u64
    ensures { result ≡ apply Op.Mulh left right }
{
    upper64(product(left.cast_signed(), right.cast_signed()))
}

fn mulhsu(left: u64, right: u64) -> u64
    ensures { result ≡ apply Op.Mulhsu left right }
{
    upper64(i128::from(left.cast_signed()) * i128::from(right))
}

fn mulhu(left: u64, right: u64) -> u64
    ensures { result ≡ apply Op.Mulhu left right }
{
    ((u128::from(left) * u128::from(right)) >> 64) as u64
}

fn div(left: u64, right: u64) -> u64
    ensures { result ≡ apply Op.Div left right }
{
    if right == 0 {
        u64::MAX
    } else {
        quotient(left.cast_signed(), right.cast_signed())
    }
}

fn divu(left: u64, right: u64) -> u64
    ensures { result ≡ apply Op.Divu left right }
{
    if right == 0 { u64::MAX } else { left / right }
}

fn rem(left: u64, right: u64) -> u64
    ensures { result ≡ apply Op.Rem left right }
{
    if right == 0 {
        left
    } else {
        remainder(left.cast_signed(), right.cast_signed())
    }
}

fn remu(left: u64, right: u64) -> u64
    ensures { result ≡ apply Op.Remu left right }
{
    if right == 0 { left } else { left % right }
}

fn divw(left: u64, right: u64) -> u64
    ensures { result ≡ apply Op.Divw left right }
{
    if low32(right) == 0 {
        u64::MAX
    } else {
        sign_extend32(quotient(signed32(left), signed32(right)))
    }
}

fn divuw(left: u64, right: u64) -> u64
    ensures { result ≡ apply Op.Divuw left right }
{
    if low32(right) == 0 {
        u64::MAX
    } else {
        sign_extend32(low32(left) / low32(right))
    }
}

fn remw(left: u64, right: u64) -> u64
    ensures { result ≡ apply Op.Remw left right }
{
    if low32(right) == 0 {
        sign_extend32(left)
    } else {
        remainder(signed32(left), signed32(right))
    }
}

fn remuw(left: u64, right: u64) -> u64
    ensures { result ≡ apply Op.Remuw left right }
{
    if low32(right) == 0 {
        sign_extend32(left)
    } else {
        sign_extend32(low32(left) % low32(right))
    }
}

// The quotient of signed numbers, rounded toward zero. -2^63 / -1 wraps to -2^63. ISA manual, section 13.2.
fn quotient(dividend: i64, divisor: i64) -> u64
    requires { divisor ≢ pos 0 }
    ensures { result ≡ unsigned64 (int_div dividend divisor) }
{
    dividend.wrapping_div(divisor).cast_unsigned()
}

fn remainder(dividend: i64, divisor: i64) -> u64
    requires { divisor ≢ pos 0 }
    ensures { result ≡ unsigned64 (int_rem dividend divisor) }
{
    dividend.wrapping_rem(divisor).cast_unsigned()
}

fn product(left: i64, right: i64) -> i128
    ensures { result ≡ left *ℤ right }
{
    i128::from(left) * i128::from(right)
}

// The high 64 bits of a 128-bit product.
fn upper64(product: i128) -> u64
    ensures { result ≡ upper64 product }
{
    (product.cast_unsigned() >> 64) as u64
}

fn low32(number: u64) -> u64
    ensures { result ≡ low32 number }
{
    number % (1 << 32)
}

fn signed32(number: u64) -> i64
    ensures { result ≡ signed32 number }
{
    i64::from((low32(number) as u32).cast_signed())
}

fn sign_extend32(number: u64) -> u64
    ensures { result ≡ sign_extended32 number }
{
    signed32(number).cast_unsigned()
}
