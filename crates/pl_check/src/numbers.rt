ghost use Rattle.std.specs.Prelude.{◌≡◌, ◌==◌, ℕ, true};
ghost use Rattle.std.specs.List.{list_any};

use std::marker::Model;

/// Numbers that are looked for by halves, which contracts see as a list of them.
#[derive(Debug, Drop)]
pub struct Numbers {
    // They do not fall.
    numbers: Vec<u32>,
}

impl Model for Numbers {
    ghost use Rattle.std.specs.Prelude.{ℕ, List};
    ghost use Rattle.std.specs.List.Sorted.{IsNonDecreasing};

    ghost Value = { List ℕ };

    ghost view = { λ n. n.numbers.items };

    ghost invariant = { λ n. IsNonDecreasing n.numbers.items };
}

impl Numbers {
    /// The same numbers in their order.
    pub fn of(mut numbers: Vec<u32>) -> Numbers
        ensures { (n : ℕ) → list_any (λ m. m == n) result ≡ list_any (λ m. m == n) numbers.items }
    {
        numbers.sort_unstable();
        Numbers { numbers }
    }

    pub fn has(&self, number: u32) -> bool
        ensures { result ≡ list_any (λ n. n == number) self.now }
    {
        stands_in_line(&self.numbers, number) || self.numbers.binary_search(&number).is_ok()
    }
}

// Whether the number stands where it must if they ascend without a gap.
fn stands_in_line(numbers: &[u32], number: u32) -> bool
    ensures { result ≡ true → list_any (λ n. n == number) numbers.now ≡ true }
{
    let Some(first) = numbers.first() else {
        return false;
    };
    match number.checked_sub(*first) {
        Some(place) => numbers.get(place as usize) == Some(&number),
        None => false,
    }
}
