// A partition of numbers into groups, which can be joined.
ghost use Rattle.std.specs.Prelude.{◌≡◌, ◌≢◌, ℕ, ◌<◌, ◌≤◌, [], ◌∷◌, ◌++◌, All, length, OnOk, IfOk, slice_index};
ghost use Rattle.func_place.specs.Ranks.{begins};
ghost use Rattle.func_place.specs.internal.Groups.{grouping_of, list_at, group_of, IsGrouped, numbered, Joins};

use rb_bytes::fault::NoMemory;
use std::alloc::Global;
use std::collections::VecDeque;
use std::mem;

/// The numbers below some bound, in groups. Each group has a number, and its members are in an order.
#[derive(Drop)]
pub struct Groups {
    /// For each member, the number of its group.
    numbers: Vec<usize>,
    /// The members of each group; empty if the group was joined to another one.
    lists: Vec<VecDeque<usize>>,
}

impl Groups {
    /// Each number below `n` in a group of its own, whose number is the same.
    pub fn new(alloc: Global, n: usize) -> Result<Groups, NoMemory>
        ensures len { IfOk result (λ g. length (grouping_of g).lists ≡ n) }
        ensures grouped { IfOk result (λ g. IsGrouped (grouping_of g)) }
        ensures number { IfOk result (λ g. (u : ℕ) → u < n → slice_index (grouping_of g).numbers u ≡ u) }
        ensures alone { IfOk result (λ g. (u : ℕ) → u < n → list_at (grouping_of g).lists u ≡ u ∷ []) }
    {
        let mut numbers = Vec::new(alloc);
        let mut lists = Vec::new(alloc);
        for member in 0..n {
            let mut own = VecDeque::new(alloc);
            own.push_back(member)?;
            numbers.push(member)?;
            lists.push(own)?;
        }
        Ok(Groups { numbers, lists })
    }

    /// Joins two groups, the second after the first. The members of the shorter one get the number of the other, so a
    /// member gets a new number only if its group at least doubles. Returns the number that is kept.
    pub fn join(&mut self, alloc: Global, first: usize, second: usize) -> Result<usize, NoMemory>
        requires grouped { IsGrouped (grouping_of self.old) }
        requires apart { first ≢ second }
        requires first_in { first < length (grouping_of self.old).lists }
        requires second_in { second < length (grouping_of self.old).lists }
        ensures joins { IfOk result (Joins (grouping_of self.old) (grouping_of self.new) first second) }
    {
        if self.lists[first].len() < self.lists[second].len() {
            let few = mem::replace(&mut self.lists[first], VecDeque::new(alloc));
            put_in_front(few, &mut self.lists[second], &mut self.numbers, second)?;
            Ok(second)
        } else {
            let few = mem::replace(&mut self.lists[second], VecDeque::new(alloc));
            put_at_end(few, &mut self.lists[first], &mut self.numbers, first)?;
            Ok(first)
        }
    }

    /// The number of a member's group.
    pub fn group_number(&self, member: usize) -> usize
        requires grouped { IsGrouped (grouping_of self.now) }
        requires member_in { member < length (grouping_of self.now).lists }
        ensures is { result ≡ slice_index (grouping_of self.now).numbers member }
        ensures within { result < length (grouping_of self.now).lists }
    {
        self.numbers[member]
    }

    /// Whether a member is the first of its group.
    pub fn begins(&self, member: usize) -> bool
        requires grouped { IsGrouped (grouping_of self.now) }
        requires member_in { member < length (grouping_of self.now).lists }
        ensures { result ≡ begins (group_of (grouping_of self.now) member) member }
    {
        match self.lists[self.numbers[member]].front() {
            Some(&first) => first == member,
            None => false,
        }
    }

    /// Appends the members of the group of `member` to `line`, in their order.
    pub fn put_group(&self, member: usize, line: &mut Vec<usize>) -> Result<(), NoMemory>
        requires grouped { IsGrouped (grouping_of self.now) }
        requires member_in { member < length (grouping_of self.now).lists }
        ensures { OnOk result (line.new.items ≡ line.old.items ++ group_of (grouping_of self.now) member) }
    {
        let (front, back) = self.lists[self.numbers[member]].as_slices();
        line.extend_from_slice(front)?;
        line.extend_from_slice(back)?;
        Ok(())
    }

    /// For each member, the lowest member of its group.
    pub fn lowest_members(&self, alloc: Global) -> Result<Vec<usize>, NoMemory>
        requires grouped { IsGrouped (grouping_of self.now) }
        ensures len { IfOk result (λ v. length v.items ≡ length (grouping_of self.now).lists) }
        ensures same_group { IfOk result (λ v. (u : ℕ) → u < length (grouping_of self.now).lists →
            slice_index (grouping_of self.now).numbers (slice_index v.items u) ≡
            slice_index (grouping_of self.now).numbers u) }
        ensures lowest { IfOk result (λ v. (u w : ℕ) → u < length (grouping_of self.now).lists →
            w < length (grouping_of self.now).lists →
            slice_index (grouping_of self.now).numbers w ≡ slice_index (grouping_of self.now).numbers u →
            slice_index v.items u ≤ w) }
    {
        lowest_of_groups(alloc, &self.numbers)
    }
}

// For each index, the first index with the same number.
fn lowest_of_groups(alloc: Global, numbers: &[usize]) -> Result<Vec<usize>, NoMemory>
    requires { All (λ q. q < length numbers.now) numbers.now }
    ensures len { IfOk result (λ v. length v.items ≡ length numbers.now) }
    ensures same_group { IfOk result (λ v. (u : ℕ) → u < length numbers.now →
        slice_index numbers.now (slice_index v.items u) ≡ slice_index numbers.now u) }
    ensures lowest { IfOk result (λ v. (u w : ℕ) → u < length numbers.now → w < length numbers.now →
        slice_index numbers.now w ≡ slice_index numbers.now u → slice_index v.items u ≤ w) }
{
    let n = numbers.len();
    let mut lows: Vec<usize> = vec![in alloc; n; n]?;
    let mut firsts = Vec::new(alloc);
    for (member, number) in numbers.iter().enumerate() {
        if lows[*number] > member {
            lows[*number] = member;
        }
        firsts.push(lows[*number])?;
    }
    Ok(firsts)
}

// Moves the members of `few` to the front of `many`, whose group has this `number`.
fn put_in_front(
    mut few: VecDeque<usize>,
    many: &mut VecDeque<usize>,
    numbers: &mut [usize],
    number: usize,
) -> Result<(), NoMemory>
    requires { All (λ u. u < length numbers.old) few.items }
    ensures members { OnOk result (many.new.items ≡ few.items ++ many.old.items) }
    ensures numbers { OnOk result ((u : ℕ) → u < length numbers.old → slice_index numbers.new u ≡
        numbered few.items number numbers.old u) }
{
    while let Some(u) = few.pop_back() {
        numbers[u] = number;
        many.push_front(u)?;
    }
    Ok(())
}

// Moves the members of `few` to the end of `many`, whose group has this `number`.
fn put_at_end(
    mut few: VecDeque<usize>,
    many: &mut VecDeque<usize>,
    numbers: &mut [usize],
    number: usize,
) -> Result<(), NoMemory>
    requires { All (λ u. u < length numbers.old) few.items }
    ensures members { OnOk result (many.new.items ≡ many.old.items ++ few.items) }
    ensures numbers { OnOk result ((u : ℕ) → u < length numbers.old → slice_index numbers.new u ≡
        numbered few.items number numbers.old u) }
{
    while let Some(u) = few.pop_front() {
        numbers[u] = number;
        many.push_back(u)?;
    }
    Ok(())
}
