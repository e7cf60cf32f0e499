//! Numbers in groups.
/// Numbers from 0 on, in groups. A group is known by the least of its numbers.
#[derive(Drop)]
pub(crate) struct Groups {
    /// Of each number one of its group that is nearer to the least, which has itself.
    pub(crate) nearer: Vec<usize>,
}

impl Groups {
    /// The least number of this one's group. Every second number on the way there is brought nearer to it.
    pub(crate) fn least(&mut self, number: usize) -> usize {
        let mut here = number;
        for _step in 0..self.nearer.len() {
            let next = self.nearer.get(here).copied().unwrap_or(here);
            if next == here {
                return here;
            }
            let further = self.nearer.get(next).copied().unwrap_or(next);
            if here < self.nearer.len() {
                self.nearer[here] = further;
            }
            here = further;
        }
        here
    }

    /// This number, if there is one, is from now on of one group with the last one, and is the last one then.
    pub(crate) fn join(&mut self, last: &mut Option<usize>, next: Option<usize>) {
        let Some(number) = next else {
            return;
        };
        let one = self.least(last.unwrap_or(number));
        let other = self.least(number);
        let large = one.max(other);
        if large < self.nearer.len() {
            self.nearer[large] = one.min(other);
        }
        *last = next;
    }
}
