//! A table of keys over lent memory. It means the list of its keys in the order of putting, no two the same.

#![tactic(auto)]

ghost use Rattle.std.specs.Prelude.{◌≡◌, ◌^◌, ◌<◌, ◌≤◌, false, [], ◌∷◌, ◌++◌, map, length};
ghost use Rattle.std.specs.List.{slice_get};
ghost use Rattle.std.specs.Option.{option_and_then, option_map};
ghost use Rattle.table.specs.Keys.{KeyModel, KeyLaws, number_key, place_of, put_answer, put_keys, adds, number_of};
ghost use Rattle.table.specs.Chains.{Chained, Chained-prop, unused, room_for, bucket_of, stored_keys};
ghost use Rattle.table.specs.Memory.{SameSlice};
ghost use Rattle.table.specs.Links.{Linked};
ghost use Rattle.std.proofs.Common.{rules};

/// A type of keys: an equivalence, and a number that same keys share.
pub trait Key: Sized {
    // Which keys are the same, and the scatter number of each.
    ghost model: { KeyModel Self };

    /// Whether two keys are the same.
    fn same(&self, other: &Self) -> bool
        ensures { result ≡ model.same self.now other.now };

    /// The number by which a key is looked up. It need not be well spread.
    fn scatter(&self) -> u32
        ensures { result ≡ model.scatter self.now };

    // Sameness is an equivalence, and same keys have the same scatter number.
    ghost laws: { KeyLaws model };
}

/// Equal numbers are the same key.
impl Key for u32 {
    ghost model = { number_key };

    ghost laws = { Prim.search rules };

    fn same(&self, other: &u32) -> bool {
        *self == *other
    }

    fn scatter(&self) -> u32 {
        *self
    }
}

/// Why a put is refused.
#[derive(Clone, Copy, PartialEq, Eq, Debug)]
pub enum Refusal {
    /// The key is new and no place is free.
    Full = 35,
}

impl Refusal {
    /// The number that the refusal has in messages.
    pub fn number(self) -> u8
        ensures { result ≡ number_of self }
    {
        self as u8
    }
}

/// One place of the lent memory: the key of this place, the newest place of the bucket of this number, and the place before
/// this one in the bucket of this key.
// Links between slots: the memory is lent, and nothing is allocated.
#[derive(Clone, Copy, Drop)]
pub struct Slot<K> {
    key: K,
    head: Option<u32>,
    next: Option<u32>,
}

impl<K: Drop> Slot<K> {
    /// A slot to lend. Its key is only a filler, and never in a list.
    pub fn new(key: K) -> Slot<K>
        ensures { result ≡ unused key }
    {
        Slot {
            key,
            head: None,
            next: None,
        }
    }

    /// The key in the slot: a filler, unless the slot is one of those that a table has stored keys in.
    pub fn key(&self) -> &K
        ensures { result.now ≡ self.now.key }
    {
        &self.key
    }
}

// A link names a place by 32 bits.
const MOST_PLACES: usize = 4_294_967_296;

// How many places so many slots give.
fn room_for(slots: usize) -> usize
    ensures { result ≡ room_for slots }
{
    slots.min(MOST_PLACES)
}

// Mixes the bits of the number, so that numbers in sequence or at equal distances spread over the buckets.
fn bucket(scatter: u32, room: usize) -> usize
    requires { room ≤ 2 ^ 32 }
    ensures { result ≡ bucket_of scatter room }
{
    let mixed = (scatter ^ (scatter >> 15)).wrapping_mul(2_654_435_769);
    ((mixed as u64 * room as u64) >> 32) as usize
}

// Ends every chain.
fn unlink<K: Key + Drop>(slots: &mut [Slot<K>])
    ensures { Chained K.Key.model 0 slots.new [] }
{
    for slot in slots.iter_mut() {
        slot.head = None;
    }
}

// Stores the key at the place and makes it the newest of the bucket.
fn link<K: Drop>(slots: &mut [Slot<K>], place: usize, bucket: usize, key: K)
    requires { (place < length slots.old) × ((place < 2 ^ 32) × (bucket < length slots.old)) }
    ensures { Linked slots.old place bucket key slots.new }
{
    let next = slots[bucket].head;
    let head = slots[place].head;
    slots[place] = Slot { key, head, next };
    slots[bucket].head = Some(place as u32);
}

/// A list of keys, no two the same, in lent memory. The first `len` slots hold the keys in the order of putting.
// A slice with a length beside it: the memory is lent, and nothing is allocated.
#[derive(Drop)]
pub struct Table<'a, K: Key> {
    slots: &'a mut [Slot<K>],
    len: usize,
    pub ghost chained: { Chained K.Key.model len slots.now (stored_keys len slots.now) } by { Chained-prop K.code K.Key.model len slots.now (stored_keys len slots.now) },
}

impl<'a, K: Key + Drop> Table<'a, K> {
    ghost use Rattle.table.specs.Tables.{keys_of, room_of, slots_of};
    ghost use Rattle.table.specs.Search.{Steps, Gap, Seeks};

    /// An empty table, with a place for each slot.
    pub fn new(slots: &'a mut [Slot<K>]) -> Table<'a, K>
        ensures keys { keys_of result ≡ [] }
        ensures memory { SameSlice slots.entry result.slots }
    {
        unlink(slots);
        Table { slots, len: 0 }
    }

    /// Empties the list.
    pub fn clear(&mut self)
        ensures keys { keys_of self.new ≡ [] }
        ensures memory { SameSlice self.old.slots self.new.slots }
    {
        unlink(self.slots);
        self.len = 0;
    }

    /// How many keys the list has.
    pub fn count(&self) -> usize
        ensures keys { result ≡ length (keys_of self.now) }
        ensures within { result ≤ length (slots_of self.now) }
    {
        self.stored_slots().len()
    }

    /// How many places there are, free or not.
    pub fn room(&self) -> usize
        ensures room { result ≡ room_of self.now }
        ensures within { result ≤ length (slots_of self.now) }
        ensures most { result ≤ 2 ^ 32 }
    {
        room_for(self.slots.len())
    }

    /// The key at a place of the list.
    pub fn key_at(&self, place: usize) -> Option<&K>
        ensures { option_map (λ k. k.now) result ≡ slice_get (keys_of self.now) place }
    {
        self.stored_slots().get(place).map(Slot::key)
    }

    /// The slots that hold the keys of the list, in order.
    pub fn stored_slots(&self) -> &[Slot<K>]
        ensures { map (λ s. s.key) result.now ≡ keys_of self.now }
    {
        let slots = &*self.slots;
        &slots[..self.len]
    }

    /// The place of the same key, or none.
    pub fn find(&self, key: &K) -> Option<usize>
        ensures { result ≡ place_of K.Key.model (keys_of self.now) key.now }
    {
        self.search(key).ok()
    }

    /// Adds a new key at the end of the list, leaves a held one, and answers its place. Only an added key changes the memory.
    pub fn put(&mut self, key: K) -> Result<usize, Refusal>
        ensures answer { result ≡ put_answer K.Key.model (room_of self.old) (keys_of self.old) key }
        ensures keys { keys_of self.new ≡ put_keys K.Key.model (room_of self.old) (keys_of self.old) key }
        ensures unchanged { adds K.Key.model (room_of self.old) (keys_of self.old) key ≡ false → self.new ≡ self.old }
        ensures memory { SameSlice self.old.slots self.new.slots }
    {
        let bucket = match self.search(&key) {
            Ok(held) => return Ok(held),
            Err(bucket) => bucket,
        };
        let place = self.len;
        if place >= self.room() {
            return Err(Refusal::Full);
        }
        self.append(place, bucket, key);
        Ok(place)
    }

    // Adds a new key at the end of the list.
    fn append(&mut self, place: usize, bucket: usize, key: K)
        requires { (place ≡ self.old.len) × ((place < room_of self.old) × (Gap K.Key.model self.old key bucket)) }
        ensures keys { keys_of self.new ≡ keys_of self.old ++ key ∷ [] }
        ensures memory { SameSlice self.old.slots self.new.slots }
    {
        link(self.slots, place, bucket, key);
        self.len = place + 1;
    }

    // The newest place of a bucket, or none where there is no such bucket.
    fn head(&self, bucket: usize) -> Option<u32>
        ensures { result ≡ option_and_then (λ s. s.head) (slice_get (slots_of self.now) bucket) }
    {
        self.slots.get(bucket).and_then(|slot| slot.head)
    }

    // The link from a slot to the place before it in its bucket.
    fn next(&self, place: usize) -> Option<u32>
        requires { place < length (slots_of self.now) }
        ensures { Steps K.Key.model self.now place result }
    {
        let slots = &*self.slots;
        slots[place].next
    }

    // Goes through the bucket of the key, from the newest place down: the place of the same key, or the bucket of a new one.
    fn search(&self, key: &K) -> Result<usize, usize>
        ensures { Seeks K.Key.model self.now key.now result }
    {
        let slots = &*self.slots;
        let bucket = bucket(key.scatter(), self.room());
        let mut link = self.head(bucket);
        while let Some(place) = link {
            let place = place as usize;
            if slots[place].key.same(key) {
                return Ok(place);
            }
            link = self.next(place);
        }
        Err(bucket)
    }
}
