//! Where the bytes of volumes lie.

ghost use Rattle.std.specs.Prelude.{◌≡◌, ◌<◌, ◌≤◌, ◌^◌, length, option_copied};
ghost use Rattle.std.specs.List.{AllByRecursion};
ghost use Rattle.layout.specs.Limits.{IsSegment};
ghost use Rattle.layout.specs.Places.{volume_of, stripe_blocks, segment_length, run_length, length_of, place_from, place_in, place_of, AreOneToOne};

use crate::layouts::Layout;
use crate::volumes::Volume;
use fab_base::{GroupId, Segment, StripeNo};

/// Where a byte of a volume lies.
#[derive(Clone, Copy, Debug, PartialEq, Eq)]
pub struct Place {
    /// The group.
    pub group: GroupId,
    /// The stripe of the group.
    pub stripe: StripeNo,
    /// The data block of the stripe.
    pub block: u8,
    /// The place of the byte in the block.
    pub within: u16,
}

impl Layout {
    /// The volume of this name, if there is one.
    pub fn volume(&self, name: &str) -> Option<&Volume>
        ensures { option_copied result ≡ volume_of self.now name.now }
    {
        for volume in self.volumes() {
            if volume.name() == name {
                return Some(volume);
            }
        }
        None
    }

    // How many data blocks each stripe of a segment has.
    fn stripe_blocks(&self, segment: Segment) -> u8
        ensures value { result ≡ stripe_blocks self.now segment }
        ensures few { result ≤ 16 }
    {
        match self.group(segment.group) {
            Some(group) => group.policy().m(),
            None => 0,
        }
    }

    // How many bytes a segment has.
    fn segment_length(&self, segment: Segment) -> u64
        ensures value { result ≡ segment_length self.now segment }
        ensures few { result ≤ 2 ^ 48 }
    {
        self.is_within_limits();
        let stripes = u64::from(segment.stripes);
        let blocks = u64::from(self.stripe_blocks(segment));
        stripes * blocks * u64::from(self.block())
    }

    // How many bytes some segments have.
    fn run_length(&self, segments: &[Segment]) -> u64
        requires { length segments.now ≤ 1024 }
        ensures { result ≡ run_length self.now segments.now }
    {
        let mut total = 0;
        for segment in segments {
            total += self.segment_length(*segment);
        }
        total
    }

    /// How many bytes the volume of this name has. None exactly where there is no such volume.
    pub fn length(&self, volume: &str) -> Option<u64>
        ensures { result ≡ length_of self.now volume.now }
    {
        self.is_within_limits();
        let volume = self.volume(volume)?;
        Some(self.run_length(volume.segments()))
    }

    // The place of a byte of a segment.
    fn place_from(&self, segment: Segment, byte: u64) -> Place
        requires held { IsSegment self.now.groups segment }
        requires below { byte < segment_length self.now segment }
        ensures { result ≡ place_from self.now segment byte }
    {
        self.is_within_limits();
        let blocks = u64::from(self.stripe_blocks(segment));
        let block = u64::from(self.block());
        let number = byte / block;
        Place {
            group: segment.group,
            stripe: StripeNo(segment.first.0 + (number / blocks) as u32),
            block: (number % blocks) as u8,
            within: (byte % block) as u16,
        }
    }

    // The place of a byte of some segments, one after another.
    fn place_in(&self, segments: &[Segment], byte: u64) -> Option<Place>
        requires { AllByRecursion (IsSegment self.now.groups) segments.now }
        ensures { result ≡ place_in self.now segments.now byte }
    {
        let mut left = byte;
        for segment in segments {
            let length = self.segment_length(*segment);
            if left < length {
                return Some(self.place_from(*segment, left));
            }
            left -= length;
        }
        None
    }

    // The place of a byte of the volume of this name.
    fn find_place(&self, volume: &str, byte: u64) -> Option<Place>
        ensures { result ≡ place_of self.now volume.now byte }
    {
        self.is_within_limits();
        let volume = self.volume(volume)?;
        self.place_in(volume.segments(), byte)
    }

    /// Where a byte of the volume of this name lies. None exactly where there is no such volume or byte.
    ///
    /// A volume's bytes are its segments in order, a segment's bytes are its stripes in order, and a stripe's bytes are its data
    /// blocks in order. The bytes of the volumes and the places of their segments are one to one.
    pub fn place(&self, volume: &str, byte: u64) -> Option<Place>
        ensures value { result ≡ place_of self.now volume.now byte }
        ensures one_to_one { AreOneToOne self.now }
    {
        self.is_within_limits();
        self.find_place(volume, byte)
    }
}
