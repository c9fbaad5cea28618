// Eight hexadecimal digits: whether they are, and the number that they say.
ghost use Rattle.std.specs.Prelude.{◌≡◌, true, cond};
ghost use Rattle.std.specs.declared.option.Option.TheVariants.{Some, None};
ghost use Rattle.text.specs.Bytes.{all};
ghost use Rattle.text.specs.Digits.{is_hex, digits_value};

// Whether a byte is a hexadecimal digit. The tests are joined without a branch, so that eight bytes
// can be tested at once. The library's `is_ascii_hexdigit` takes capital letters too.
#[tactic(auto, unfolding(crate::specs::Digits::is_hex, crate::specs::Digits::is_decimal))]
fn is_hex(b: u8) -> bool
    ensures { result ≡ is_hex b }
{
    (b'0' <= b) & (b <= b'9') | (b'a' <= b) & (b <= b'f')
}

// Whether all eight bytes are hexadecimal digits. All are looked at, with no branch on any: a processor
// cannot predict which digits are letters.
fn are_hex(digits: &[u8; 8]) -> bool
    ensures { result ≡ all is_hex digits.now }
{
    digits.iter().fold(true, |hex, b| hex & is_hex(*b))
}

// The number that eight bytes say which are known to be hexadecimal digits. All are turned to their values at
// once, the low half of the code and 9 more for a letter; then two and two, four and four are joined. The
// library reads a `str`, which the bytes would have to be made first, and one digit after another.
pub fn hex_number(digits: &[u8; 8]) -> u32
    requires { all is_hex digits.now ≡ true }
    ensures { result ≡ digits_value 16 digits.now }
{
    let w = u64::from_le_bytes(*digits);
    let values = (w & 0x0f0f_0f0f_0f0f_0f0f) + (w & 0x4040_4040_4040_4040) / 64 * 9;
    let pairs = (values * 16 + values / 0x100) & 0x00ff_00ff_00ff_00ff;
    let fours = (pairs * 0x100 + pairs / 0x1_0000) & 0x0000_ffff_0000_ffff;
    (fours % 0x1_0000_0000 * 0x1_0000 + fours / 0x1_0000_0000) as u32
}

// The number that eight hexadecimal digits say, and None where one of the eight is no digit. The
// library's `from_str_radix` takes capital letters and a sign too.
pub fn from_hex(digits: &[u8; 8]) -> Option<u32>
    ensures { result ≡ cond (all is_hex digits.now) (Some (digits_value 16 digits.now)) None }
{
    if are_hex(digits) {
        Some(hex_number(digits))
    } else {
        None
    }
}
