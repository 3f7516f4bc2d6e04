ghost use Rattle.std.specs.Prelude.{◌≡◌, ℕ, ◌+◌, ◌<◌, ◌≤◌, ◌++◌, length, drop, None, IfSome, IfOk};
ghost use Rattle.std.specs.Result.{result_err};
ghost use Rattle.event.specs.Rows.{or_else};
ghost use Rattle.event.specs.Spans.{span};
ghost use Rattle.bundle.specs.Bundles.{tapes_in, events_in, offset_place, offset_in, offsets_in, event_place, size_for, event_in, events_of, wrong_event, count_checks, offset_check, event_check, read_fault, first_wrong, or_fault, filled, FormatStands};

use crate::fault::BundleFault;
use crate::number::bytes_at;
use crate::offsets::lowest_wrong;
use event::kind::Kind;
use event::refusal::Refusal;
use event::span::{Span, part};

/// The most tapes of a bundle.
pub const MOST_TAPES: usize = 512;

/// The most events of a bundle.
pub const MOST_EVENTS: usize = 65_535;

/// The bytes before the offsets.
const HEADER: usize = 8;

/// The bytes of an offset.
const OFFSET_WIDTH: usize = 4;

// A file of one kind that is as long as its header says.
#[derive(Drop)]
struct BundleFile<'a> {
    bytes: &'a [u8],
    tapes: usize,
    events: usize,
    // how many bytes an event takes
    width: usize,
    ghost tape_count: { tapes ≡ tapes_in bytes.now },
    ghost event_count: { events ≡ events_in bytes.now },
    ghost few_events: { events ≤ 65535 },
    ghost size: { length bytes.now ≡ size_for width bytes.now },
}

impl<'a> BundleFile<'a> {
    // The file in some bytes, or what is wrong with their header or their length.
    fn new<K: Kind>(bytes: &'a [u8]) -> Result<BundleFile<'a>, BundleFault>
        ensures fault { result_err result ≡ first_wrong (count_checks K.Kind.NUMBER K.Kind.WIDTH bytes.now) }
        ensures bytes { IfOk result (λ f. f.bytes.now ≡ bytes.now) }
        ensures width { IfOk result (λ f. f.width ≡ K.Kind.WIDTH) }
    {
        if bytes.len() < HEADER {
            return Err(BundleFault::Short);
        }
        if u16::from_be_bytes(bytes_at(bytes, 0)) != K::NUMBER {
            return Err(BundleFault::Kind);
        }
        let tapes = usize::from(u16::from_be_bytes(bytes_at(bytes, 2)));
        let events = u32::from_be_bytes(bytes_at(bytes, 4)) as usize;
        if tapes > MOST_TAPES || events > MOST_EVENTS {
            return Err(BundleFault::Size);
        }
        let width = K::WIDTH;
        // wide enough for every width
        let offsets_end = HEADER + OFFSET_WIDTH * (tapes + 1);
        let size = offsets_end as u128 + events as u128 * width as u128;
        if (bytes.len() as u128) < size {
            return Err(BundleFault::Short);
        }
        if size < bytes.len() as u128 {
            return Err(BundleFault::Over);
        }
        Ok(BundleFile {
            bytes,
            tapes,
            events,
            width,
        })
    }

    // Where the bytes of an offset are.
    fn offset_span(&self, index: usize) -> Span
        requires { index ≤ self.now.tapes }
        ensures { result ≡ span (offset_place index) 4 }
    {
        Span {
            start: HEADER + OFFSET_WIDTH * index,
            length: OFFSET_WIDTH,
        }
    }

    // The offset at an index.
    fn offset(&self, index: usize) -> u32
        requires { index ≤ self.now.tapes }
        ensures { result ≡ offset_in self.now.bytes.now index }
    {
        u32::from_be_bytes(bytes_at(self.bytes, self.offset_span(index).start))
    }

    // Where the bytes of an event are.
    fn event_span(&self, index: usize) -> Span
        requires { index < self.now.events }
        ensures { result ≡ span (event_place self.now.width self.now.bytes.now index) self.now.width }
    {
        Span {
            start: HEADER + OFFSET_WIDTH * (self.tapes + 1) + self.width * index,
            length: self.width,
        }
    }

    // The event at an index, or EVENT where its bytes are outside the kind.
    fn event<K: Kind>(&self, index: usize) -> Result<K, Refusal>
        requires { index < self.now.events }
        ensures { result ≡ or_else Refusal.Event (event_in self.now.width K.Kind.stands self.now.bytes.now index) }
    {
        K::read(part(self.bytes, self.event_span(index)))
    }

    // Looks for a wrong offset.
    fn check_offsets(&self) -> Result<(), BundleFault>
        ensures { result ≡ or_fault (offset_check self.now.bytes.now) tt }
    {
        let wrong = lowest_wrong(self.tapes + 1, |i| self.offset(i), self.events as u32);
        match wrong {
            None => Ok(()),
            Some(index) => Err(BundleFault::Offsets {
                index,
                span: self.offset_span(index),
            }),
        }
    }

    // The lowest event whose bytes are outside the kind, if one is.
    fn wrong_event<K: Kind>(&self) -> Option<usize>
        ensures lowest { result ≡ wrong_event self.now.width K.Kind.stands self.now.bytes.now }
        ensures within { IfSome result (λ i. i < self.now.events) }
    {
        (0..self.events).find(|i| self.event::<K>(*i).is_err())
    }

    // Looks for an event whose bytes are outside the kind.
    fn check_events<K: Kind>(&self) -> Result<(), BundleFault>
        ensures { result ≡ or_fault (event_check self.now.width K.Kind.stands self.now.bytes.now) tt }
    {
        match self.wrong_event::<K>() {
            None => Ok(()),
            Some(index) => Err(BundleFault::Event {
                index,
                span: self.event_span(index),
            }),
        }
    }

    // Writes the offsets at a row's front.
    fn copy_offsets(&self, row: &mut [u32])
        requires { self.now.tapes < length row.old }
        ensures { row.new ≡ offsets_in self.now.bytes.now ++ drop (tapes_in self.now.bytes.now + 1) row.old }
    {
        for (index, slot) in row[..self.tapes + 1].iter_mut().enumerate() {
            *slot = self.offset(index);
        }
    }

    // Writes the events, which all stand, at a row's front.
    fn copy_events<K: Kind>(&self, row: &mut [K])
        requires all_stand { wrong_event self.now.width K.Kind.stands self.now.bytes.now ≡ None }
        requires room { self.now.events ≤ length row.old }
        ensures { row.new ≡ events_of self.now.width K.Kind.stands self.now.bytes.now ++ drop (events_in self.now.bytes.now) row.old }
    {
        for (index, slot) in row[..self.events].iter_mut().enumerate() {
            *slot = self.event(index).unwrap();
        }
    }
}

/// Reads a bundle file into the fronts of two rows, and returns how many tapes and events it has. A refusal leaves both rows as they were.
pub fn read_bundle<K: Kind>(
    file: &[u8],
    offsets: &mut [u32],
    events: &mut [K],
) -> Result<(usize, usize), BundleFault>
    ensures answer { result ≡ or_fault (read_fault K.Kind.NUMBER K.Kind.WIDTH K.Kind.stands file.now (length offsets.old) (length events.old)) (tapes_in file.now, events_in file.now) }
    ensures offsets_after { offsets.new ≡ filled (read_fault K.Kind.NUMBER K.Kind.WIDTH K.Kind.stands file.now (length offsets.old) (length events.old)) (offsets_in file.now) offsets.old }
    ensures events_after { events.new ≡ filled (read_fault K.Kind.NUMBER K.Kind.WIDTH K.Kind.stands file.now (length offsets.old) (length events.old)) (events_of K.Kind.WIDTH K.Kind.stands file.now) events.old }
{
    let file = BundleFile::new::<K>(file)?;
    file.check_offsets()?;
    file.check_events::<K>()?;
    if offsets.len() <= file.tapes || events.len() < file.events {
        return Err(BundleFault::Room);
    }
    file.copy_offsets(offsets);
    file.copy_events(events);
    Ok((file.tapes, file.events))
}

/// Reading finds no fault in a file, and gives some offsets and events, exactly if the file says them.
pub fn format_stands<K: Kind>() -> u8
    ensures { FormatStands K.Kind.NUMBER K.Kind.WIDTH K.Kind.stands }
{
    0
}
