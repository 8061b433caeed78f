//! What a thread took out: the sum, and whether each thread's numbers came in order.

/// The numbers that a thread took out, one after the other.
#[derive(Drop)]
pub struct Tally {
    pub sum: u64,
    pub in_order: bool,
    /// The least number of each thread that may come next.
    first: u64,
    second: u64,
}

impl Tally {
    /// Of these numbers; the first thread's are below `border`.
    pub fn of(numbers: &[u64], border: u64) -> Tally {
        let mut tally = Tally {
            sum: 0,
            in_order: true,
            first: 0,
            second: 0,
        };
        for number in numbers {
            tally.count(*number, border);
        }
        tally
    }

    /// One number more.
    fn count(&mut self, number: u64, border: u64) {
        let next = number.saturating_add(1);
        if number < border {
            self.in_order = self.in_order && number >= self.first;
            self.first = next;
        } else {
            self.in_order = self.in_order && number >= self.second;
            self.second = next;
        }
        self.sum = self.sum.saturating_add(number);
    }
}
