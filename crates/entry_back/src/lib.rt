// One entry of a journal put back: where its record holds the entry's bytes as left, its bytes as read are written.
#![tactic(auto)]

ghost use Rattle.std.specs.Prelude.{◌≡◌, cond, ◌*◌, ◌≤◌, ◌<◌, length};
ghost use Rattle.record.specs.Layout.{entry_size, entry_in};
ghost use Rattle.entry_back.specs.Entry.{matches, undone, step_of, stepped_image};

use record::{CHECK, HEAD, STAMP, VERDICT};

// What an entry's bytes say is undone where it matches; whether it does.
#[tactic(auto, unfolding(crate::specs::Entry::same_bytes))]
fn undo(d: usize, image: &mut [u8], entry: &[u8]) -> bool
    requires d_bound { d ≤ 16 }
    requires len { length entry.now ≡ entry_size d }
    ensures value { result ≡ matches d (entry_in d entry.now) image.old }
    ensures image_after { image.new ≡ cond result (undone d (entry_in d entry.now) image.old) image.old }
{
    let size = d + CHECK;
    let n = record::number(&entry[STAMP..VERDICT]) as usize;
    if n >= image.len() / size {
        return false;
    }
    let at = n * size;
    let end = at + size;
    let middle = HEAD + size;
    let last = middle + size;
    let same = image[at..end] == entry[middle..last];
    if same {
        record::put_bytes(&mut image[at..end], &entry[HEAD..middle]);
    }
    same
}

// The entry before a place of the journal is put back where it matches: the place that this leads to, or none where it does not match.
pub fn entry_back(d: usize, image: &mut [u8], journal: &[u8], place: usize) -> Option<usize>
    requires d_bound { d ≤ 16 }
    requires place_nonzero { 0 < place }
    requires d_in_bounds { place * entry_size d ≤ length journal.now }
    ensures value { result ≡ step_of d journal.now place image.old }
    ensures image_after { image.new ≡ stepped_image d journal.now place image.old }
{
    let size = d + CHECK;
    let step = HEAD + (size + size);
    let n = place - 1;
    let at = n * step;
    let end = at + step;
    undo(d, image, &journal[at..end]).then_some(n)
}
