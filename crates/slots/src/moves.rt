//! What a pass does to the words of slots and column.
ghost use Rattle.std.specs.Prelude.{◌≡◌, ◌+◌, ◌<◌, ◌≤◌, T, length, slice_index, slice_set};
ghost use Rattle.slots.specs.Asked.{Granted};
ghost use Rattle.slots.specs.Pass.{sum_of, rest_of, Passed, Cleared};

use kinds::kind::Kind;

/// The first words become 0.
pub fn clear(words: &mut [u64], count: usize)
    requires { count ≤ length words.old }
    ensures { Cleared count words.old words.new }
{
    words[..count].fill(0);
}

// Adds the two values from `low` on in the column: their sum stays there, and what remains goes to the slot of the pair.
fn add_pair<K: Kind>(slots: &mut [u64], column: &mut [u64], low: usize, pair: usize)
    requires places { (low + 1 < length column.old) × (pair + 2 < length slots.old) }
    requires numbers { (T (K.Kind.number (slice_index column.old low))) × (T (K.Kind.number (slice_index column.old (low + 1)))) }
    ensures slots { slots.new ≡ slice_set slots.old (pair + 2) (rest_of K.Kind (slice_index column.old low) (slice_index column.old (low + 1))) }
    ensures column { column.new ≡ slice_set column.old low (sum_of K.Kind (slice_index column.old low) (slice_index column.old (low + 1))) }
{
    let (sum, rest) = K::add(column[low], column[low + 1]);
    column[low] = sum;
    slots[pair + 2] = rest;
}

// Adds the value of the plan to the lead.
fn add_lead<K: Kind>(slots: &mut [u64], value: u64)
    requires count { 2 ≤ length slots.old }
    requires numbers { (T (K.Kind.number (slice_index slots.old 0))) × (T (K.Kind.number value)) }
    ensures { slots.new ≡ slice_set (slice_set slots.old 0 (sum_of K.Kind (slice_index slots.old 0) value)) 1 (rest_of K.Kind (slice_index slots.old 0) value) }
{
    let (lead, rest) = K::add(slots[0], value);
    slots[0] = lead;
    slots[1] = rest;
}

/// A pass that is granted. The values of the parts that wait for their closing bracket stand in the column.
// The three borrows stay apart: of a struct that holds them a clause names what is left by its position, `bench.exit.0.now` for `slots.new`.
pub fn pass_by<K: Kind>(slots: &mut [u64], column: &mut [u64], plan: &[u8])
    requires { Granted K.Kind slots.old (length column.old) plan.now }
    ensures slots { Passed K.Kind plan.now slots.old slots.new }
    ensures column { Cleared (length slots.old) column.old column.new }
{
    // Places and not items: the column is a stack in the caller's memory, and slots are written behind those that are read.
    let mut next = 1;
    let mut held = 0;
    let mut pairs = 0;
    for byte in plan {
        // A rule of the project: the characters of a plan are matched as such.
        match *byte as char {
            '.' => {
                column[held] = slots[next];
                held += 1;
                next += 1;
            }
            '(' => {}
            ')' => {
                let low = held - 2;
                add_pair::<K>(slots, column, low, pairs);
                held = low + 1;
                pairs += 1;
            }
            _ => unreachable(),
        }
    }
    add_lead::<K>(slots, column[0]);
    clear(column, slots.len());
}
