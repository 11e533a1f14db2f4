// Text, numbers and bytes on standard output.
ghost use Rattle.std.specs.Prelude.{◌≡◌, ◌*◌, ◌≤◌, length};

const DIGITS: [u8; 16] = *b"0123456789abcdef";

pub fn say(rt: &HostRuntime, text: &[u8]) -> usize
    ensures { result ≡ length text.now }
{
    let _ = rt.write_all(text);
    text.len()
}

pub fn say_line(rt: &HostRuntime, text: &[u8]) -> usize
    ensures { result ≡ length text.now }
{
    say(rt, text);
    say(rt, b"\n");
    text.len()
}

// A number in decimal.
pub fn say_number(rt: &HostRuntime, n: u64) -> u64
    ensures { result ≡ n }
{
    let _ = rt.print(n);
    n
}

// A number behind its name.
pub fn say_field(rt: &HostRuntime, name: &[u8], n: u64) -> u64
    ensures { result ≡ n }
{
    say(rt, name);
    say_number(rt, n)
}

// A number with the word for one thing, or for many.
pub fn say_count(rt: &HostRuntime, n: u64, one: &[u8], many: &[u8]) -> u64
    ensures { result ≡ n }
{
    say_number(rt, n);
    say(rt, if n == 1 { one } else { many });
    n
}

fn digit(n: u8) -> u8 {
    DIGITS[usize::from(n % 16)]
}

// At most 512 bytes, as many as one text holds, in hexadecimal: how many.
fn say_some(rt: &HostRuntime, bytes: &[u8]) -> usize
    requires { 2 * length bytes.now ≤ 1024 }
    ensures { result ≡ length bytes.now }
{
    let mut text = [0u8; 1024];
    let mut said = 0;
    for (place, byte) in text.chunks_exact_mut(2).zip(bytes) {
        place[0] = digit(*byte / 16);
        place[1] = digit(*byte);
        said += 1;
    }
    say(rt, numbers::part(&text, 0, 2 * said));
    said
}

// Bytes in hexadecimal, two digits each.
pub fn say_bytes(rt: &HostRuntime, bytes: &[u8]) -> usize
    ensures { result ≡ length bytes.now }
{
    let mut said = 0;
    for part in bytes.chunks(512) {
        said += say_some(rt, part);
    }
    said
}
