// The free ends as one word, bit e for end e: ones give the count, trailing zeros the lowest.
ghost use Rattle.std.specs.Prelude.{◌≡◌, false, ◌^◌, ◌<◌, length, get_or, drop};
ghost use Rattle.rules.specs.Limits.{end_count};
ghost use Rattle.rules.specs.Numbers.{end_number};
ghost use Rattle.rules.specs.State.{State, EndState, free_end, is_free_end, end_at, set_end};
ghost use Rattle.rules.specs.Layout.{free_word};
ghost use Rattle.keeping.proofs.LayoutLaws.{Sized};
ghost use Rattle.ends.specs.Words.{ends_in, FourLowest};

use rules::End;

// How many ends are free.
pub fn count(word: u64) -> u8
    ensures { result ≡ length (ends_in word) }
{
    u64::count_ones(word) as u8
}

// The lowest free end; with none free, the number of ends, which is what the C function for the free ends answers then.
pub fn lowest(word: u64) -> End
    ensures { end_number result ≡ get_or (ends_in word) 0 end_count }
{
    End(u64::trailing_zeros(word) as u8)
}

// The word without its lowest end; without any, the word itself.
pub fn without_lowest(word: u64) -> u64
    ensures { ends_in result ≡ drop 1 (ends_in word) }
{
    if word == 0 {
        return 0;
    }
    word & (word - 1)
}

// The bit of an end.
fn bit(end: End) -> u64
    requires { end_number end < end_count }
    ensures { result ≡ 2 ^ (end_number end) }
{
    1u64 << end.0
}

// Does the word name an end?
pub fn names(word: u64, end: End) -> bool
    requires { end_number end < end_count }
    ensures { (st : State) → Sized st → word ≡ free_word st.ends → result ≡ is_free_end (end_at st (end_number end)) }
{
    (word >> end.0) % 2 == 1
}

// The word with an end freed.
pub fn freed(word: u64, end: End) -> u64
    requires { end_number end < end_count }
    ensures { (st : State) → Sized st → word ≡ free_word st.ends → result ≡ free_word (set_end st (end_number end) free_end).ends }
{
    word | bit(end)
}

// The word with an end taken, for whatever use x.
pub fn taken(word: u64, end: End) -> u64
    requires { end_number end < end_count }
    ensures { (st : State) (x : EndState) → Sized st → word ≡ free_word st.ends → is_free_end x ≡ false
        → result ≡ free_word (set_end st (end_number end) x).ends }
{
    word & !bit(end)
}

// The four lowest free ends, for a split; with fewer free, the number of ends for those that are missing.
#[derive(Clone, Copy)]
pub struct FourEnds {
    pub p: End,
    pub q: End,
    pub s: End,
    pub t: End,
}

pub fn four_lowest(word: u64) -> FourEnds
    ensures { FourLowest (ends_in word) result }
{
    let p = lowest(word);
    let after_p = without_lowest(word);
    let q = lowest(after_p);
    let after_q = without_lowest(after_p);
    let s = lowest(after_q);
    let t = lowest(without_lowest(after_q));
    FourEnds { p, q, s, t }
}
