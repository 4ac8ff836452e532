// A replay: the letters of a good store read again, from left to right, one step a letter, with no
// write. It tells the row of the longest palindrome that ends what is read.
ghost use Rattle.std.specs.Prelude.{◌+◌, ◌<◌};
ghost use Rattle.partners.specs.Table.{LetterPartners};
ghost use Rattle.store.specs.Good.{Good};
ghost use Rattle.store.specs.Layout.{size_in};
ghost use Rattle.walk.specs.Frame.{Frames};
ghost use Rattle.walk.specs.Replay.{Holds};

use super::frame::{Frame, frame_of, standing};
use super::step;
use partners::{of_letter, of_letters};
use store::letters::Side;
use store::rows::Row;

// How far a replay of a store is: the frame and the partners that it reads with, taken once and not
// for each letter, how many letters it has read, and the row of the longest palindrome that ends
// those.
#[derive(Drop)]
pub struct Replay<'a> {
    store: &'a [u8],
    frame: Frame,
    partners: [u8; 4],
    read: usize,
    row: usize,
}

impl<'a> Replay<'a> {
    ghost use Rattle.std.specs.Prelude.{◌≡◌};
    ghost use Rattle.walk.specs.Replaying.{Ready};

    // Before the first letter.
    pub fn new(store: &'a [u8]) -> Replay<'a>
        requires { Good store.now }
        ensures ready { Ready result }
        ensures of_store { result.store.now ≡ store.now }
        ensures first { result.read ≡ 0 }
        ensures first_row { result.row ≡ 1 }
    {
        let frame = frame_of(store);
        Replay {
            store,
            frame,
            partners: of_letters(frame.reading),
            read: 0,
            row: Row::EMPTY,
        }
    }
}

// Each letter's place, and the row of the longest palindrome that ends there.
impl<'a> Iterator for Replay<'a> {
    ghost use Rattle.walk.specs.Replaying.{Ready, Tells, letters_left};

    type Item = (usize, usize);

    ghost can_next = { Ready };

    ghost next_gives = { Tells };

    ghost remaining = { letters_left };

    #[inline]
    fn next(&mut self) -> Option<(usize, usize)> {
        let k = self.read;
        if k < self.frame.n {
            let row = next(self.store, self.frame, &self.partners, k, self.row);
            self.read = k + 1;
            self.row = row;
            Some((k, row))
        } else {
            None
        }
    }
}

// The row of the longest palindrome that ends the first k + 1 letters, from that of the first k.
pub fn next(b: &[u8], f: Frame, partners: &[u8; 4], k: usize, row: usize) -> usize
    requires good { Good b.now }
    requires frames { Frames b.now f }
    requires letter_partners { LetterPartners f.reading partners.now }
    requires k_bound { k < size_in b.now }
    requires holds { Holds b.now k row }
    ensures { Holds b.now (k + 1) result }
{
    let d = standing(b, f, Side::Right, k);
    step(b, f, Side::Right, k, row, d, of_letter(partners, d))
}
