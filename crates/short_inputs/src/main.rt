// Runs every input of up to three bytes through the reader of both number forms and through the name check, and counts the answers.
//
// The counts are known without the program.
// Text: 1 byte: 00..7f, 128. 2 bytes: two of those, 128 * 128, and c2..df with 80..bf, 30 * 64: 18,304.
//   3 bytes: 128^3; one of 1 and one of 2 in either order, 2 * 128 * 1,920; and e0 with 32 * 64, e1..ec, ee and ef with 14 * 64 * 64,
//   ed with 32 * 64: 61,440; together 2,650,112.
// Where a name that is not text stops, at its length where it merely ends early. No character starts with 77 of the bytes (80..c1,
//   f5..ff); one of more bytes starts with 51: 30, 16 and 5 of two, three and four. Of these the second byte is right in 30 * 64; 960
//   (e0 and ed with 32, 14 with 64); and 256 (f0 with 48, f1..f3 with 64, f4 with 16), and wrong in the other 9,920 of 51 * 256 pairs.
//   1 byte: at 0: 77; at 1: 51. 2 bytes: at 0: 77 * 256 = 19,712; at 1: 128 * 77 + 9,920 = 19,776; at 2: 128 * 51 + 960 + 256 = 7,744.
//   3 bytes: at 0: 77 * 256^2 = 5,046,272; at 1: 19,776 * 256 = 5,062,656; at 2: two bytes of text with 77, 00..7f with 9,920, and the
//   960 and the 256 with the 192 outside 80..bf: 18,304 * 77 + 128 * 9,920 + 1,216 * 192 = 2,912,640; at 3: two bytes of text with 51,
//   00..7f with the 960 and the 256, and the 256 with 80..bf: 18,304 * 51 + 128 * 1,216 + 256 * 64 = 1,105,536.
//   With the texts these are all inputs: 256, 256^2 and 256^3.
// Unsigned numbers that end with the input, each byte but the last 80 or above, and the last below 80: 128; 128^2 = 16,384;
//   128^3 = 2,097,152. Padded among them, with a last byte 00: 2 bytes: the 128 below 128; 3 bytes: the 128^2 below 16,384.
// Signed ones, the last below 40: 64; 128 * 64 = 8,192; 128^2 * 64 = 1,048,576. Padded among them, with a last byte 00 and the byte
//   before it below c0: 2 bytes: the 64 below 64; 3 bytes: the 128 * 64 = 8,192 below 8,192.
// Longer: those of fewer bytes with any bytes behind. Unsigned: 128 * 256 = 32,768; 256 times that and 16,384 * 256: 12,582,912.
//   Signed: 64 * 256 = 16,384; 256 times that and 8,192 * 256: 6,291,456.
// Cut: every byte is 80 or above: 1, 128, 128^2, 128^3 for 0 to 3 bytes, in both forms.
// Bad, unsigned: none, since three bytes are within 32 bits.
// Bad, signed: a last byte 40..7f. 1 byte: 64. 2 bytes: 64 * 256, and 128 first bytes with 40..7f, 128 * 64: 24,576. 3 bytes: 256
//   times that, and 128^2 * 64: 7,340,032.
#![tactic(auto)]

use numbers::{NoNumber, NotText, Number};
use telling::{say, say_field};

// The two number forms.
#[derive(Clone, Copy)]
enum Form {
    Unsigned,
    Signed,
}

impl Form {
    fn take(self, input: &[u8]) -> Result<Number, NoNumber> {
        match self {
            Form::Unsigned => numbers::take_unsigned(input),
            Form::Signed => numbers::take_signed(input),
        }
    }

    // How many bytes n is put as.
    fn shortest(self, n: u32) -> usize {
        match self {
            Form::Unsigned => numbers::unsigned_size(n),
            Form::Signed => numbers::signed_size(n),
        }
    }
}

// Counts stay far below 2^64.
fn count(n: &mut u64) {
    *n = n.saturating_add(1);
}

// What one number form makes of the inputs of one length.
#[derive(Clone, Copy, Default)]
struct Numbers {
    // The number ends with the input.
    whole: u64,
    // It does, and has more bytes than its shortest form.
    padded: u64,
    // Bytes are left after the number.
    longer: u64,
    // The input ends inside the number.
    cut: u64,
    // No number of 32 bits in at most five bytes.
    bad: u64,
}

impl Numbers {
    // One input more.
    fn add(&mut self, form: Form, input: &[u8]) {
        match form.take(input) {
            Ok(Number { value, took }) => {
                if took == input.len() {
                    count(&mut self.whole);
                    if form.shortest(value) < took {
                        count(&mut self.padded);
                    }
                } else {
                    count(&mut self.longer);
                }
            }
            Err(NoNumber::Cut) => count(&mut self.cut),
            Err(NoNumber::Bad) => count(&mut self.bad),
        }
    }

    fn print(self, rt: &HostRuntime, form: &[u8]) {
        say(rt, form);
        say_field(rt, b" whole ", self.whole);
        say_field(rt, b" padded ", self.padded);
        say_field(rt, b" longer ", self.longer);
        say_field(rt, b" cut ", self.cut);
        say_field(rt, b" bad ", self.bad);
        say(rt, b"\n");
    }
}

// What the name check makes of the inputs of one length.
#[derive(Clone, Copy, Default)]
struct Names {
    // Text.
    text: u64,
    // Names that stop at offset 0, 1, 2 and 3.
    stops: [u64; 4],
}

impl Names {
    // One input more.
    fn add(&mut self, input: &[u8]) {
        if numbers::is_text(input) {
            count(&mut self.text);
        }
        if let Err(NotText { stop }) = numbers::spelling_of(input) {
            if let Some(n) = self.stops.get_mut(stop) {
                count(n);
            }
        }
    }

    fn print(self, rt: &HostRuntime) {
        let [at_0, at_1, at_2, at_3] = self.stops;
        say_field(rt, b": text ", self.text);
        say_field(rt, b"\n  stops at 0: ", at_0);
        say_field(rt, b", at 1: ", at_1);
        say_field(rt, b", at 2: ", at_2);
        say_field(rt, b", at 3: ", at_3);
        say(rt, b"\n");
    }
}

// Every input of `length` bytes, of which there are `total`.
fn every(rt: &HostRuntime, length: usize, total: u32) {
    let mut unsigned = Numbers::default();
    let mut signed = Numbers::default();
    let mut names = Names::default();
    for i in 0..total {
        let bytes = i.to_le_bytes();
        let input = numbers::part(&bytes, 0, length);
        unsigned.add(Form::Unsigned, input);
        signed.add(Form::Signed, input);
        names.add(input);
    }
    say_field(rt, b"inputs of length ", length as u64);
    names.print(rt);
    unsigned.print(rt, b"  unsigned");
    signed.print(rt, b"  signed");
}

fn main(rt: HostRuntime) {
    every(&rt, 0, 1);
    every(&rt, 1, 256);
    every(&rt, 2, 65536);
    every(&rt, 3, 16777216);
}
