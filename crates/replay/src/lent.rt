// What an entry writes into a list that is lent to it.

// What stands in a list before a call: it stays after what is written.
pub const BEFORE: u64 = 7;

// Answers the first numbers of a list, of which there are so many, if all after them are as before.
pub fn written<T: Copy + Drop>(list: &[T], count: usize) -> Option<&[T]>
where
    u64: From<T>,
{
    let (written, after) = list.split_at_checked(count)?;
    after
        .iter()
        .all(|x| u64::from(*x) == BEFORE)
        .then_some(written)
}
