use std::alloc::{AllocError, Global};

// All orders of so many tasks, as lists of their numbers from 0, in the order of a dictionary.
pub fn orders(heap: Global, count: usize) -> Result<Vec<Vec<usize>>, AllocError> {
    let mut all = Vec::new(heap);
    for number in 0..words(count) {
        let letters = word(heap, count, number)?;
        if names_all(&letters) {
            all.push(letters)?;
        }
    }
    Ok(all)
}

// How many lists there are of so many task numbers, with repeats.
fn words(count: usize) -> usize {
    // no `saturating_pow`: the exponent would be the count cast to u32
    (0..count).fold(1usize, |all, _| all.saturating_mul(count))
}

// One of these lists, by its number from 0 in the order of a dictionary.
fn word(heap: Global, count: usize, number: usize) -> Result<Vec<usize>, AllocError> {
    let mut rest = number;
    let mut weight = words(count);
    let mut letters = Vec::new(heap);
    for _ in 0..count {
        weight = (weight / count.max(1)).max(1);
        letters.push(rest / weight)?;
        rest = rest % weight;
    }
    Ok(letters)
}

// Whether a list of so many task numbers has each of them, and so is an order.
fn names_all(letters: &[usize]) -> bool {
    (0..letters.len()).all(|j| letters.contains(&j))
}
