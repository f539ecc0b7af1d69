// A reader of a lent journal, from its end to its start: it holds the journal, and the place that it has come to.
#![tactic(auto)]

ghost use Rattle.std.specs.Prelude.{◌≡◌, ◌*◌, ◌≤◌, ◌<◌, length, unwrap_or};
ghost use Rattle.record.specs.Layout.{entry_size};
ghost use Rattle.entry_back.specs.Entry.{step_of, stepped_image};

#[derive(Clone, Copy)]
pub struct Reader<'a> {
    pub journal: &'a [u8],
    pub place: usize,
}

impl<'a> Reader<'a> {
    // One step backwards: the entry before the reader's place is put back where it matches, and the reader stands at the place before it.
    pub fn step_back(&mut self, d: usize, image: &mut [u8]) -> Option<usize>
        requires d_bound { d ≤ 16 }
        requires place_nonzero { 0 < self.old.place }
        requires d_in_bounds { self.old.place * entry_size d ≤ length self.old.journal.now }
        ensures value { result ≡ step_of d self.old.journal.now self.old.place image.old }
        ensures image_after { image.new ≡ stepped_image d self.old.journal.now self.old.place image.old }
        ensures journal_kept { self.new.journal ≡ self.old.journal }
        ensures place_after { self.new.place ≡ unwrap_or result self.old.place }
    {
        let place = entry_back::entry_back(d, image, self.journal, self.place)?;
        self.place = place;
        Some(place)
    }
}
