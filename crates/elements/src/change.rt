// A run of elements: the first one of an id, and a record with a run of it replaced.
ghost use Rattle.std.specs.Prelude.{◌≡◌, ◌==◌, IfSome, List, [], ◌∷◌, ◌+◌, ◌-◌, ◌<◌, ◌≤◌, length, take};
ghost use Rattle.std.specs.List.{position_from};
ghost use Rattle.elements.specs.Elements.{Element, elements_of, lay_elements, sum};
ghost use Rattle.elements.specs.Runs.{Shown, Holds, behind, kept, run_of, element, replaced_at, end};

use crate::list::{push, total};
use crate::{Extensions, Run};

impl Run {
    // All elements behind these, of `count` in all with `total` data bytes.
    fn behind(self, count: usize, total: usize) -> Self
        requires count_bound { self.first + self.count ≤ count }
        requires count_bound_2 { count ≤ 32 }
        requires len_bound { self.at + self.len ≤ total }
        requires total_bound { total ≤ 1024 }
        ensures { result ≡ behind self count total }
    {
        let first = self.first + self.count;
        let at = self.at + self.len;
        Run {
            first,
            count: count - first,
            at,
            len: total - at,
        }
    }
}

fn place_of(id: u8, ids: &[u8]) -> Option<usize>
    ensures place { result ≡ position_from (λ n. n == id) 0 ids.now }
    ensures within { IfSome result (λ i. i < length ids.now) }
{
    ids.iter().position(|name| *name == id)
}

// The first element of an id, of the first `count` in these arrays.
// Stays: the arrays by themselves, since `Parts`, which lends them, is header_write's, which uses this crate.
pub fn find(id: u8, count: usize, ids: &[u8; 32], lens: &[u16; 32]) -> Option<Run>
    requires { count ≤ 32 }
    ensures { (es : List Element) → Shown es count ids.now lens.now → result ≡ run_of id 0 0 es }
{
    let first = place_of(id, &ids[..count])?;
    Some(Run {
        first,
        count: 1,
        at: total(first, lens),
        len: usize::from(lens[first]),
    })
}

impl Extensions {
    // The run's elements of `old`, behind those of `self` with their `used` data bytes.
    fn keep(self, used: usize, old: &Extensions, run: Run) -> Self
        requires count_bound { self.count + run.count ≤ 32 }
        requires len_bound { used + run.len ≤ 1024 }
        requires count_bound_2 { run.first + run.count ≤ 32 }
        requires len_bound_2 { run.at + run.len ≤ 1024 }
        ensures { result ≡ kept self used old.now run }
    {
        let count = self.count;
        let end = count + run.count;
        let mut ids = self.ids;
        let mut lens = self.lens;
        let mut bytes = self.bytes;
        ids[count..end].copy_from_slice(&old.ids[run.first..run.first + run.count]);
        lens[count..end].copy_from_slice(&old.lens[run.first..run.first + run.count]);
        bytes[used..used + run.len].copy_from_slice(&old.bytes[run.at..run.at + run.len]);
        Extensions {
            count: end,
            ids,
            lens,
            bytes,
        }
    }

    // The elements in front of the run alone.
    fn front(&self, run: Run) -> Self
        requires { Holds self.now run }
        ensures { result ≡ lay_elements (take run.first (elements_of self.now)) }
    {
        let before = Run {
            first: 0,
            count: run.first,
            at: 0,
            len: run.at,
        };
        Extensions::new().keep(0, self, before)
    }
}

// No element, at the list's end.
// Stays: functions and no methods, since `header` lends the record on, and no public call asks for room.
pub fn end(list: &Extensions) -> Run
    requires count_bound { list.now.count ≤ 32 }
    ensures { result ≡ end list.now }
{
    Run {
        first: list.count,
        count: 0,
        at: total(list.count, &list.lens),
        len: 0,
    }
}

// One element of `id` with the data in the place of the run.
pub fn replaced(list: &Extensions, run: Run, id: u8, data: &[u8]) -> Extensions
    requires holds { Holds list.now run }
    requires count_bound { list.now.count - run.count < 32 }
    requires data_bound { sum (take list.now.count list.now.lens) - run.len + length «data».now ≤ 1024 }
    ensures { result ≡ lay_elements (replaced_at run (element id «data».now ∷ []) (elements_of list.now)) }
{
    let behind = run.behind(list.count, total(list.count, &list.lens));
    let put = push(list.front(run), run.at, id, data);
    put.keep(run.at + data.len(), list, behind)
}

// Nothing in the place of the run.
pub fn without(list: &Extensions, run: Run) -> Extensions
    requires { Holds list.now run }
    ensures { result ≡ lay_elements (replaced_at run [] (elements_of list.now)) }
{
    let behind = run.behind(list.count, total(list.count, &list.lens));
    list.front(run).keep(run.at, list, behind)
}
