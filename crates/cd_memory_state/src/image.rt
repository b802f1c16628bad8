// The images that a crash may leave, made by the generator.
ghost use Rattle.std.specs.Prelude.{◌≡◌, ◌<◌, ◌≤◌, ◌^◌, [], false, length, vec_capacity};
ghost use Rattle.std.specs.List.{list_any};
ghost use Rattle.cd_memory_state.specs.Generator.{is_within, is_doubtful, byte_at, number_at, bytes_from, image_from, left_by};
ghost use Rattle.cd_memory_state.specs.Image.{doubt_in, file_doubt};
ghost use Rattle.cd_memory_state.specs.FileImage.{given_file, is_left_of, after_is_left_of, file_from, file_left_by};

use crate::Generator;
use crate::bytes::replace_within;

/// What a crash may leave: the bytes of the last sync, the place and length of each write since, the oldest first, and
/// the least and greatest length.
#[derive(Clone, Copy)]
pub struct InDoubt<'a> {
    pub base: &'a [u8],
    pub ranges: &'a [(u64, u64)],
    pub least: usize,
    pub greatest: usize,
}

/// One of the ranges holds the place.
fn is_written(ranges: &[(u64, u64)], place: u64) -> bool
    ensures { result ≡ list_any (is_within place) ranges.now }
{
    ranges
        .iter()
        .any(|range| range.0 <= place && place - range.0 < range.1)
}

/// The byte at a place is in doubt.
fn is_doubtful(doubt: InDoubt<'_>, place: usize) -> bool
    ensures { result ≡ is_doubtful (doubt_in doubt.entry) place }
{
    place >= doubt.least || is_written(doubt.ranges, place as u64)
}

/// The byte of an image at a place.
fn next_byte(doubt: InDoubt<'_>, place: usize, generator: &mut Generator) -> u8
    requires { doubt.least ≤ length doubt.base.now }
    ensures value { result ≡ byte_at (doubt_in doubt.entry) generator.old place }
    ensures number { generator.new ≡ number_at (doubt_in doubt.entry) generator.old place }
{
    if is_doubtful(doubt, place) {
        generator.draw(256) as u8
    } else {
        doubt.base[place]
    }
}

fn fill_bytes(into: &mut Vec<u8>, doubt: InDoubt<'_>, len: usize, generator: &mut Generator)
    requires least { doubt.least ≤ length doubt.base.now }
    requires room { len ≤ vec_capacity into.old }
    ensures items { into.new.items ≡ bytes_from (doubt_in doubt.entry) generator.old 0 len }
    ensures room { vec_capacity into.old ≤ vec_capacity into.new }
{
    into.clear();
    for place in 0..len {
        into.push_reserved(next_byte(doubt, place, generator));
    }
}

/// Leaves an image that the generator draws, within the room for the greatest length.
pub fn fill(into: &mut Vec<u8>, doubt: InDoubt<'_>, mut generator: Generator)
    requires least { doubt.least ≤ length doubt.base.now }
    requires greatest { doubt.least ≤ doubt.greatest }
    requires range { doubt.greatest < 2 ^ 63 }
    requires room { doubt.greatest ≤ vec_capacity into.old }
    ensures items { into.new.items ≡ image_from generator (doubt_in doubt.entry) }
    ensures room { vec_capacity into.old ≤ vec_capacity into.new }
{
    let more = generator.draw((doubt.greatest - doubt.least + 1) as u64);
    fill_bytes(into, doubt, doubt.least + more as usize, &mut generator);
}

/// Leaves the image of that number in place of what a read gives.
pub fn leave(seen: &mut Vec<u8>, doubt: InDoubt<'_>, image: u64)
    requires least { doubt.least ≤ length doubt.base.now }
    requires greatest { length doubt.base.now ≤ doubt.greatest }
    requires range { doubt.greatest < 2 ^ 63 }
    requires room { doubt.greatest ≤ vec_capacity seen.old }
    ensures items { seen.new.items ≡ left_by image (doubt_in doubt.entry) seen.old.items }
    ensures room { vec_capacity seen.old ≤ vec_capacity seen.new }
{
    match image {
        0 => replace_within(seen, doubt.base),
        1 => {}
        seed => fill(seen, doubt, Generator::new(seed)),
    }
}

/// Whether a drawn image has the file.
fn draw_file(there: bool, moved: bool, generator: &mut Generator) -> bool
    ensures left { result ≡ is_left_of there moved generator.old }
    ensures number { generator.new ≡ after_is_left_of moved generator.old }
{
    if moved { generator.draw(2) == 1 } else { there }
}

/// Leaves a drawn image in place of what a read gives, and tells whether there is a file.
fn draw(seen: &mut Vec<u8>, there: bool, moved: bool, doubt: InDoubt<'_>, seed: u64) -> bool
    requires least { doubt.least ≤ length doubt.base.now }
    requires greatest { length doubt.base.now ≤ doubt.greatest }
    requires range { doubt.greatest < 2 ^ 63 }
    requires room { doubt.greatest ≤ vec_capacity seen.old }
    ensures file { given_file result seen.new.items ≡ file_from seed (file_doubt there moved doubt.entry) }
    ensures missing { result ≡ false → seen.new.items ≡ [] }
    ensures room { vec_capacity seen.old ≤ vec_capacity seen.new }
{
    let mut generator = Generator::new(seed);
    let is_left = draw_file(there, moved, &mut generator);
    if is_left {
        fill(seen, doubt, generator);
    } else {
        seen.clear();
    }
    is_left
}

/// Leaves the image of that number in place of what a read gives of a file, and tells whether there is one. The marks
/// tell whether there was a file at the last sync, whether its making or removal is in doubt, and whether there is one.
pub fn leave_file(
    seen: &mut Vec<u8>,
    marks: (bool, bool, bool),
    doubt: InDoubt<'_>,
    image: u64,
) -> bool
    requires least { doubt.least ≤ length doubt.base.now }
    requires greatest { length doubt.base.now ≤ doubt.greatest }
    requires range { doubt.greatest < 2 ^ 63 }
    requires room { doubt.greatest ≤ vec_capacity seen.old }
    requires there { marks.0 ≡ false → doubt.base.now ≡ [] }
    requires missing { marks.2 ≡ false → seen.old.items ≡ [] }
    ensures file { given_file result seen.new.items ≡ file_left_by image (file_doubt marks.0 marks.1 doubt.entry) (given_file marks.2 seen.old.items) }
    ensures missing { result ≡ false → seen.new.items ≡ [] }
    ensures room { vec_capacity seen.old ≤ vec_capacity seen.new }
{
    let (there, moved, exists) = marks;
    match image {
        0 => {
            replace_within(seen, doubt.base);
            there
        }
        1 => exists,
        seed => draw(seen, there, moved, doubt, seed),
    }
}
