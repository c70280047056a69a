//! Those that are out, and how their answers are taken out.
ghost use Rattle.std.specs.Prelude.{◌≡◌, ℕ, ◌<◌, ◌≤◌, All, Bool, List, Option, IfOk, IsTrue, OnErr, drop, filter, length, map, not, take, vec_capacity, vec_len};
ghost use Rattle.vault_lanes.specs.Out.{IsBelow, IsParted, OutIsPut, index_in, renamed};
ghost use Rattle.vault_lanes.specs.declared.coming.Coming.{Coming};
ghost use Rattle.vault_lanes.specs.Losses.{Answer};
ghost use Rattle.vault_lanes.specs.Seats.{AnswerIsWhatComes, AreTakenOut, SeatIsPut, answers_of, out_of_seat, outs, under};

use crate::lanes::Answered;
use crate::loss::Loss;
use std::alloc::{AllocError, Global};
use vault_http::DatedReply;

/// A request that is out, for an index, and how it stands.
#[derive(Debug, Drop)]
pub struct Seat<T> {
    pub index: u32,
    pub standing: T,
}

/// How a request that is out stands.
pub trait Standing: Drop {
    /// What comes of it, where it is known.
    ghost comes: { Self → Option Coming };

    /// Whether its answer is there at a moment.
    ghost there: { ℕ → Self → Bool };

    /// Its answer, where it is there.
    ghost said: { Self → Option Answer };

    fn is_there(&self, moment: u64) -> bool
        ensures { result ≡ there moment self.now };

    /// The answer, where it is there.
    fn into_answer(self) -> Option<Result<DatedReply, Loss>>
        ensures comes { (moment : ℕ) → IsTrue (there moment self) → AnswerIsWhatComes (comes self) result }
        ensures said { result ≡ said self };
}

/// The place before the first with a greater index.
fn place_for<T>(out: &[Seat<T>], index: u32) -> usize
    ensures within { result ≤ length out.now }
    ensures lower { All (λ seat. seat.index ≤ index) (take result out.now) }
    ensures higher { IsBelow index (outs (λ _. None) (drop result out.now)) }
{
    let mut place = 0;
    while place < out.len() && out[place].index <= index {
        place += 1;
    }
    place
}

/// Puts one more among those that are out, before the first with a greater index.
pub fn put<T: Standing>(out: &mut Vec<Seat<T>>, seat: Seat<T>)
    requires { vec_len out.old < vec_capacity out.old }
    ensures put { OutIsPut (out_of_seat T.comes seat) (outs T.comes out.old.items) (outs T.comes out.new.items) }
    ensures seat { SeatIsPut seat out.old.items out.new.items }
{
    let place = place_for(out, seat.index);
    out.insert(place, seat).unwrap();
}

/// The index that stands in `to` where this one stands in `from`; the same where it stands in none.
fn index_in(from: &[u32], to: &[u32], index: u32) -> u32
    ensures { result ≡ index_in from.now to.now index }
{
    let mut place = 0;
    while place < from.len() && place < to.len() {
        if from[place] == index {
            return to[place];
        }
        place += 1;
    }
    index
}

/// Each is for another index from now on: for that in `to` which stands where its own stands in `from`.
pub fn rename<T: Standing>(out: &mut [Seat<T>], from: &[u32], to: &[u32])
    ensures renamed { outs T.comes out.new ≡ renamed from.now to.now (outs T.comes out.old) }
    ensures seats { out.new ≡ map (under from.now to.now) out.old }
{
    for seat in out.iter_mut() {
        seat.index = index_in(from, to, seat.index);
    }
}

/// Takes out those whose answers are there at this moment, and gives these.
pub fn take_out<T: Standing>(
    alloc: Global,
    out: &mut Vec<Seat<T>>,
    moment: u64,
) -> Result<Vec<Answered>, AllocError>
    ensures parted { IfOk result (λ answers. IsParted (outs T.comes out.old.items) answers.items (outs T.comes out.new.items)) }
    ensures there { IfOk result (λ answers. AreTakenOut (T.there moment) out.old.items out.new.items answers.items) }
    ensures said { IfOk result (λ answers. answers.items ≡ answers_of T.said (filter (λ s. T.there moment s.standing) out.old.items)) }
    ensures kept { OnErr result (out.new ≡ out.old) }
{
    let mut answers = Vec::with_capacity(alloc, out.len())?;
    let mut at = 0;
    while at < out.len() {
        if !out[at].standing.is_there(moment) {
            at += 1;
            continue;
        }
        let Seat { index, standing } = out.remove(at);
        if let Some(answer) = standing.into_answer() {
            answers.push_reserved(Answered { index, answer });
        }
    }
    Ok(answers)
}
