// The ring buffer of at most 64 times that every row keeps, in an array of 64 words. The oldest time is at index `head`; the others follow it and
// wrap around at the end.
#![tactic(auto)]

ghost use Rattle.std.specs.Prelude.{◌≡◌, ◌+◌, get_or};
ghost use Rattle.ring.specs.Ring.{ring_place, head_after, time_at, second_at, ring_of, push_ring, put_ring, put_back, times_of};

// How many times a ring holds at most.
pub const SIZE: usize = 64;

// What is done to the times of a ring. Only definitions use it (Ring.edited); code calls the function of the edit.
#[derive(Drop)]
pub enum Edit {
    // the oldest leave, as many as dropped says
    Drop {
        dropped: usize,
    },
    // so they do, and a word goes behind the rest
    Push {
        dropped: usize,
        word: u64,
    },
    // so they do, and two words go behind the rest
    PushTwo {
        dropped: usize,
        first: u64,
        second: u64,
    },
    // none leaves: two words are put at a place of their own and the next
    Store {
        place: usize,
        first: u64,
        second: u64,
    },
}

// The times that a row keeps: `len` of the 64 words, from the place `head` on and round at the end.
#[derive(Clone, Copy)]
pub struct Times<'a> {
    pub words: &'a [u64; SIZE],
    pub head: usize,
    pub len: usize,
}

impl<'a> Times<'a> {
    // The word that is i behind the head, whether it is one of the times or not.
    #[inline]
    pub fn at(self, i: usize) -> u64
        ensures { result ≡ time_at self.entry.words.now self.entry.head i }
    {
        time_at(self.words, self.head, i)
    }

    // The i-th time; 0 where there is none.
    #[inline]
    pub fn word(self, i: usize) -> u64
        ensures { result ≡ get_or (times_of self.entry) i 0 }
    {
        if i < self.len { self.at(i) } else { 0 }
    }

    // The oldest time; 0 where there is none.
    #[inline]
    pub fn front(self) -> u64
        ensures { result ≡ get_or (times_of self.entry) 0 0 }
    {
        self.word(0)
    }
}

// The place that is i behind the head.
pub fn place_of(head: usize, i: usize) -> usize
    ensures { result ≡ ring_place head i }
{
    (head % SIZE + i % SIZE) % SIZE
}

// Returns the index of the oldest time after the oldest `dropped` times leave. It is unchanged if none leaves.
pub fn head_after(head: usize, dropped: usize) -> usize
    ensures { result ≡ head_after head dropped }
{
    if dropped == 0 {
        return head;
    }
    place_of(head, dropped)
}

// The time that is i places behind the head.
pub fn time_at(times: &[u64; SIZE], head: usize, i: usize) -> u64
    ensures { result ≡ time_at times.now head i }
{
    let at = place_of(head, i);
    times[at]
}

// The functions that write take words, head and length apart, and no struct: head and length lie among the row's numbers (number_words).

// The ring with a word behind the rest, where it holds fewer than 64: its length.
pub fn push(times: &mut [u64; SIZE], head: usize, len: usize, word: u64) -> usize
    ensures { ring_of times.new head result ≡ push_ring word (ring_of times.old head len) }
{
    let at = place_of(head, len);
    if len < SIZE {
        times[at] = word;
        return len + 1;
    }
    len
}

// The ring with a word at one of its places.
fn put(times: &mut [u64; SIZE], head: usize, len: usize, i: usize, word: u64)
    ensures { ring_of times.new head len ≡ put_ring i word (ring_of times.old head len) }
{
    let at = place_of(head, i);
    if i < len {
        times[at] = word;
    }
}

// The ring with two words at a place of their own and the next.
pub fn put_pair(
    times: &mut [u64; SIZE],
    head: usize,
    len: usize,
    place: usize,
    first: u64,
    second: u64,
)
    ensures { ring_of times.new head len ≡ put_ring (place + 1) second (put_ring place first (ring_of times.old head len)) }
{
    if place < len {
        put(times, head, len, place, first);
        put(times, head, len, place + 1, second);
    }
}

// The second of the words that are overwritten from a place on; 0 where one is, as a place below 64 says.
pub fn second_at(times: &[u64; SIZE], place: usize) -> u64
    ensures { result ≡ second_at times.now place }
{
    if place < SIZE {
        return 0;
    }
    time_at(times, place, 1)
}

// A word put back at a place, or two from it on where 64 is added to it.
pub fn put_back(times: &mut [u64; SIZE], place: usize, first: u64, second: u64)
    ensures { times.new ≡ put_back place first second times.old }
{
    let at = place_of(place, 0);
    times[at] = first;
    if place < SIZE {
        return;
    }
    let after = place_of(place, 1);
    times[after] = second;
}
