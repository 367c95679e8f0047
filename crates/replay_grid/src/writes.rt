// The calls that write, and `is_mergeable`, their arguments from the list's third word on. Behind the number that each must answer stands the
// mark of the memory after it, refused or not.
ghost use Rattle.std.specs.Prelude.{◌<◌};

use crate::list::{number_of, sample_at};
use crate::memory::{Memory, Rooms, set};
use answers::{double, word};
use grid::Refusal;

// Whether an answer and the mark of a memory are those of the list.
fn holds_end(
    list: &[u8],
    at: usize,
    answer: Result<(), Refusal>,
    table: &[u64; 8192],
    memory: &Memory,
) -> bool
    requires { at < 64 }
{
    (word(list, at) == number_of(answer)) & (word(list, at + 1) == memory.mark(table))
}

// train of the list's sample
pub fn train(list: &[u8], rooms: &mut Rooms) -> bool {
    let answer = rooms.train(sample_at(list), double(word(list, 22)), word(list, 23));
    holds_end(list, 24, answer, &rooms.table, &rooms.own)
}

// What a draw and the training of what was drawn answer: the first refusal.
fn drawn_and_trained(list: &[u8], rooms: &mut Rooms) -> Result<(), Refusal> {
    let sample = rooms.draw()?;
    rooms.train(sample, double(word(list, 2)), word(list, 3))
}

// draw, and train of what was drawn
pub fn draw_and_train(list: &[u8], rooms: &mut Rooms) -> bool {
    let answer = drawn_and_trained(list, rooms);
    holds_end(list, 4, answer, &rooms.table, &rooms.own)
}

// update
pub fn update(list: &[u8], rooms: &mut Rooms) -> bool {
    let answer = rooms.update(double(word(list, 2)), double(word(list, 3)));
    holds_end(list, 4, answer, &rooms.table, &rooms.own)
}

// A cell of the reals, or of the counts where the list's third word is not 0.
pub fn set_cell(list: &[u8], rooms: &mut Rooms) -> bool {
    let place = word(list, 3) as usize;
    let x = word(list, 4);
    if word(list, 2) == 0 {
        set(&mut rooms.own.reals, place, double(x));
    } else {
        set(&mut rooms.own.counts, place, x);
    }
    holds_end(list, 5, Ok(()), &rooms.table, &rooms.own)
}

// clone_without_samples into the other memory, or back from it where the list's third word is not 0
pub fn copy(list: &[u8], rooms: &mut Rooms) -> bool {
    if word(list, 2) == 0 {
        let answer = rooms.copy();
        holds_end(list, 3, answer, &rooms.table, &rooms.other)
    } else {
        let answer = rooms.copy_back();
        holds_end(list, 3, answer, &rooms.table, &rooms.own)
    }
}

// is_mergeable
pub fn is_mergeable(list: &[u8], rooms: &Rooms) -> bool {
    number_of(rooms.is_mergeable()) == word(list, 2)
}

// merge of the other memory's grid
pub fn merge(list: &[u8], rooms: &mut Rooms) -> bool {
    let answer = rooms.merge();
    holds_end(list, 2, answer, &rooms.table, &rooms.own)
}
