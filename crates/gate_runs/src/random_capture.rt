//! Draws captures of random frames, with a fixed seed.
ghost use Rattle.std.specs.Prelude.{◌<◌, ◌≤◌};

use crate::captures::{header, push_frame};
use crate::line_output::LineOutput;

/// A sequence of numbers that depends only on its seed.
#[derive(Drop)]
pub struct RandomNumbers(u64);

impl RandomNumbers {
    /// Returns the sequence of `seed`.
    pub fn from_seed(seed: u64) -> RandomNumbers {
        RandomNumbers(seed)
    }

    /// Returns the next number below `bound`.
    fn draw_number(&mut self, bound: u64) -> u64
        requires { 0 < bound }
        ensures { result < bound }
    {
        self.0 = self
            .0
            .wrapping_mul(6_364_136_223_846_793_005)
            .wrapping_add(1_442_695_040_888_963_407);
        (self.0 >> 33) % bound
    }
}

/// Returns an address: with a `static` entry of the plan, flooded, not forwarded, or random.
fn random_address(numbers: &mut RandomNumbers) -> [u8; 6] {
    match numbers.draw_number(4) {
        0 => [2, 0, 0, 0, 0, 0x0a],
        1 => [2, 0, 0, 0, 0, 0x0b],
        2 => [1, 0x80, 0xc2, 0, 0, 0x0e],
        _ => [numbers.draw_number(256) as u8, 0, 0, 0, 0, 1],
    }
}

/// Returns tag control information: random priority and drop eligible bit, and VLAN 10, 20 or random.
fn random_tag_control(numbers: &mut RandomNumbers) -> [u8; 2] {
    let high = numbers.draw_number(16);
    let vid = match numbers.draw_number(4) {
        0 | 1 => 10,
        2 => 20,
        _ => numbers.draw_number(4_096),
    };
    let control = high * 4_096 + vid;
    (control as u16).to_be_bytes()
}

/// Returns the first octets of a frame from a random source, with a tag or with another type in its place.
fn random_octets(numbers: &mut RandomNumbers) -> [u8; 18] {
    let [a, b, c, d, e, f] = random_address(numbers);
    let (g, h) = if numbers.draw_number(4) == 0 {
        (0x88, 0xb5)
    } else {
        (0x81, 0)
    };
    let [i, j] = random_tag_control(numbers);
    let source = numbers.draw_number(256) as u8;
    [
        a, b, c, d, e, f, 2, 0, 0, 0, 0, source, g, h, i, j, 0x88, 0xb5,
    ]
}

/// Returns the number of captured octets: mostly all first octets of the frame, sometimes fewer.
fn random_captured_length(numbers: &mut RandomNumbers, len: u64) -> usize
    ensures { result ≤ 18 }
{
    let most = if len < 18 { 14 } else { 18 };
    if numbers.draw_number(8) == 0 {
        return numbers.draw_number(most) as usize;
    }
    most as usize
}

/// Returns a capture of thirty frames of 14 to 9,217 octets at rising times from `from` on, in ns.
pub fn random_capture(said: &mut LineOutput, numbers: &mut RandomNumbers, from: u64) -> Vec<u8> {
    let mut text = header(said);
    let mut at = from;
    for _ in 0..30 {
        at = at.saturating_add(numbers.draw_number(9_000));
        let len = 14 + numbers.draw_number(9_204);
        let octets = random_octets(numbers);
        let captured = random_captured_length(numbers, len);
        push_frame(said, &mut text, at, len, &octets[..captured]);
    }
    text
}
