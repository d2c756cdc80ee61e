#![tactic(auto)]
//! Ethernet frames in a time-aware bridge: headers (IEEE 802.1Q-2018, clause 9), transmission times, and the drop eligible
//! indication. This crate allocates no memory.

ghost use Rattle.std.specs.Prelude.{◌≡◌, ◌*◌, ◌^◌, ◌≤◌, ◌<◌, ℕ, List, length, Ok, Err, OnOk, IfOk};
ghost use Rattle.std.specs.Option.{ForSome};
ghost use Rattle.bridge_frame.specs.declared.FrameFault.{FrameFault};
ghost use Rattle.bridge_frame.specs.declared.Head.{Head};
ghost use Rattle.bridge_frame.specs.Addresses.{IsKey, address_key};
ghost use Rattle.bridge_frame.specs.Frames.{drop_eligible_frame, has_tag, parsed_head, is_tagged, drop_eligible_head, fault_code, frame_tag};
ghost use Rattle.bridge_frame.specs.Link.{bits_per_second, transmission_time, speed_by_mbps};

use bridge_limits::{LONGEST_FRAME, MAX_CAPTURED_OCTETS};
use thiserror::Error;

/// C-VLAN tag of a frame.
#[derive(Clone, Copy, Debug, PartialEq, Eq)]
pub struct Tag {
    /// Priority code point, 0 to 7.
    pub pcp: u8,
    /// Drop eligible indication.
    pub dei: bool,
    /// VLAN identifier, 0 to 4095; 0 in a priority tag.
    pub vid: u16,
}

/// Header of a frame.
#[derive(Clone, Copy, Debug, PartialEq, Eq)]
pub struct Head {
    /// Destination address.
    pub da: [u8; 6],
    /// Source address.
    pub sa: [u8; 6],
    /// Tag; `None` for an untagged frame.
    pub tag: Option<Tag>,
    /// SDU octets: the frame's length without addresses and tag.
    pub sdu: u32,
}

/// Reason why a frame is malformed.
#[derive(Clone, Copy, Debug, PartialEq, Eq, Error)]
pub enum FrameFault {
    /// Fewer captured octets than a header has: 14, or 18 with a tag.
    #[error("the frame is too short")]
    TooShort,
    /// Length above 9,216 octets.
    #[error("the frame is too long")]
    TooLong,
}

impl FrameFault {
    /// Returns the number of the fault: 1 for `TooShort`, 2 for `TooLong`. Contracts compare faults by this number.
    pub fn number(self) -> u8
        ensures { result ≡ fault_code self }
    {
        match self {
            FrameFault::TooShort => 1,
            FrameFault::TooLong => 2,
        }
    }
}

/// Speed of a link: 10, 100, 1,000, 2,500 or 10,000 Mb/s.
#[derive(Clone, Copy, Debug, PartialEq, Eq)]
pub enum Speed {
    /// 10 Mb/s.
    Mbps10,
    /// 100 Mb/s.
    Mbps100,
    /// 1,000 Mb/s.
    Mbps1000,
    /// 2,500 Mb/s.
    Mbps2500,
    /// 10,000 Mb/s.
    Mbps10000,
}

impl Speed {
    /// Returns the speed for `mbps` Mb/s: 10, 100, 1000, 2500 or 10000. `None` for any other number. `parse_speed` of `app_cli` and
    /// `Mbps::read` of `bridge_schema` call it.
    pub fn of(mbps: u32) -> Option<Speed>
        ensures { result ≡ speed_by_mbps mbps }
    {
        match mbps {
            10 => Some(Speed::Mbps10),
            100 => Some(Speed::Mbps100),
            1000 => Some(Speed::Mbps1000),
            2500 => Some(Speed::Mbps2500),
            10000 => Some(Speed::Mbps10000),
            _ => None,
        }
    }

    /// Returns the speed in Mb/s, 10 to 10,000. `port_mbps` of `net_check` and `put_port` of `show_picture` call it.
    pub fn megabits(self) -> u64
        ensures { result * 10 ^ 6 ≡ bits_per_second self }
    {
        match self {
            Speed::Mbps10 => 10,
            Speed::Mbps100 => 100,
            Speed::Mbps1000 => 1_000,
            Speed::Mbps2500 => 2_500,
            Speed::Mbps10000 => 10_000,
        }
    }
}

/// Reads the tag of a frame of at least 18 octets that has a C-VLAN tag. `parse` calls it.
fn read_tag(octets: &[u8]) -> Tag
    requires { 18 ≤ length octets.now }
    ensures { result ≡ frame_tag octets.now }
{
    let control = octets[14];
    Tag {
        pcp: control / 32,
        dei: control / 16 % 2 == 1,
        vid: u16::from(control % 16) * 256 + u16::from(octets[15]),
    }
}

/// Whether octets 12 and 13 are 81 00, the EtherType of a C-VLAN tag. The frame must have at least 14 octets. `parse` and
/// `mark_drop_eligible` call it.
fn is_tagged(octets: &[u8]) -> bool
    requires { 14 ≤ length octets.now }
    ensures { result ≡ is_tagged octets.now }
{
    octets[12] == 0x81 && octets[13] == 0x00
}

/// Reads the header of a frame from its captured octets. `len` is the frame's length without check sequence (IEEE 802.1Q-2018,
/// clause 9.6).
///
/// `TooShort` if the captured octets end within the header; otherwise `TooLong` if `len` exceeds 9,216. `find_destination` of
/// `bridge_relay` and `offer_frame` of `bridge_wire` call it.
pub fn parse(octets: &[u8], len: u32) -> Result<Head, FrameFault>
    requires captured { length octets.now ≤ MAX_CAPTURED_OCTETS }
    requires original { length octets.now ≤ len }
    ensures exact { result ≡ parsed_head octets.now len }
    ensures short { OnOk result (len ≤ LONGEST_FRAME) }
    ensures priority { IfOk result (λ h. ForSome h.tag (λ t. t.pcp ≤ 7)) }
    ensures vlan { IfOk result (λ h. ForSome h.tag (λ t. t.vid ≤ 4095)) }
    ensures sdu { IfOk result (λ h. h.sdu ≤ len) }
{
    if octets.len() < 14 {
        return Err(FrameFault::TooShort);
    }
    let tagged = is_tagged(octets);
    if tagged && octets.len() < 18 {
        return Err(FrameFault::TooShort);
    }
    if len > LONGEST_FRAME {
        return Err(FrameFault::TooLong);
    }
    let da = [
        octets[0], octets[1], octets[2], octets[3], octets[4], octets[5],
    ];
    let sa = [
        octets[6], octets[7], octets[8], octets[9], octets[10], octets[11],
    ];
    if tagged {
        let tag = read_tag(octets);
        Ok(Head {
            da,
            sa,
            tag: Some(tag),
            sdu: len - 16,
        })
    } else {
        Ok(Head {
            da,
            sa,
            tag: None,
            sdu: len - 12,
        })
    }
}

/// Marks a tagged frame as drop eligible, and returns whether the frame has a tag. A frame of fewer than 18 octets counts as
/// untagged. `mark_if_eligible` of `bridge_relay` calls it.
pub fn mark_drop_eligible(octets: &mut [u8]) -> bool
    ensures tagged { result ≡ has_tag octets.old }
    ensures marked { octets.new ≡ drop_eligible_frame octets.old }
    ensures kept { length octets.new ≡ length octets.old }
{
    if octets.len() < 18 || !is_tagged(octets) {
        return false;
    }
    let control = octets[14];
    if control / 16 % 2 == 0 {
        octets[14] = control + 16;
    }
    true
}

/// A frame whose tag was marked drop eligible keeps its header, except this mark. A malformed frame keeps its fault. So the next bridge
/// reads a marked frame as this bridge does.
pub fn marked_head()
    ensures head { (octets : List ℕ) (len : ℕ) (h : Head) → parsed_head octets len ≡ Ok h
        → parsed_head (drop_eligible_frame octets) len ≡ Ok (drop_eligible_head h) }
    ensures fault { (octets : List ℕ) (len : ℕ) (e : FrameFault) → parsed_head octets len ≡ Err e
        → parsed_head (drop_eligible_frame octets) len ≡ Err e }
{}

/// Returns a VLAN identifier and an address as one key: their eight octets, big-endian. Tables of static entries and of streams use it.
#[tactic(auto, unfolding(crate::specs::Addresses::address_key))]
pub fn address_key(vid: u16, address: [u8; 6]) -> u64
    ensures number { result ≡ address_key vid address }
    ensures is_key { IsKey vid address }
{
    let [high, low] = vid.to_be_bytes();
    let [a, b, c, d, e, f] = address;
    u64::from_be_bytes([high, low, a, b, c, d, e, f])
}

/// Returns the transmission time in ns, rounded up, of a frame of `len` octets. It includes padding to 60 octets, check sequence (4),
/// preamble and delimiter (8) and gap (12).
///
/// `list_bound` of `bridge_bounds`, `can_ever_fit` of `bridge_check` and many more call it.
#[tactic(auto, unfolding(crate::specs::Link::transmission_time))]
#[inline(always)]
pub fn occupation(len: u32, speed: Speed) -> u64
    ensures exact { result ≡ transmission_time len speed }
    ensures some { 0 < result }
    ensures bounded { len ≤ LONGEST_FRAME → result ≤ 7_392_000 }
{
    let octets = u64::from(len.max(60)) + 24;
    // Most links have 1,000 Mb/s, and a test costs less than a jump by a table.
    if let Speed::Mbps1000 = speed {
        return octets * 8;
    }
    match speed {
        Speed::Mbps10 => octets * 800,
        Speed::Mbps100 => octets * 80,
        Speed::Mbps1000 => octets * 8,
        Speed::Mbps2500 => (octets * 16).div_ceil(5),
        Speed::Mbps10000 => (octets * 4).div_ceil(5),
    }
}
