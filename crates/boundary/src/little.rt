// Numbers as bytes, four a number, the lowest first.
ghost use Rattle.std.specs.Prelude.{◌≡◌, ◌++◌, ◌*◌, ◌≤◌, length, drop};
ghost use Rattle.boundary.specs.Bytes.{four_of, bytes_of};

// How many bytes a number has.
const SIZE: usize = 4;

// The bytes of a number, by themselves, so that wrong ones are refused for what they are.
fn four(x: u32) -> [u8; SIZE]
    ensures { result ≡ four_of x }
{
    x.to_le_bytes()
}

// The numbers over the first of the bytes; no other byte is stored.
pub fn write(numbers: &[u32], bytes: &mut [u8])
    requires { 4 * length numbers.now ≤ length bytes.old }
    ensures { bytes.new ≡ bytes_of numbers.now ++ drop (4 * length numbers.now) bytes.old }
{
    for (i, x) in numbers.iter().enumerate() {
        let at = SIZE * i;
        bytes[at..at + SIZE].copy_from_slice(&four(*x));
    }
}
