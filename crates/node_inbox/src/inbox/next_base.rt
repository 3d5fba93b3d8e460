//! The base to which an inbox may be pruned.
ghost use Rattle.std.specs.Prelude.{◌≡◌, ◌≤◌, ◌&&◌, ℕ, false, true, if◌then◌else◌, is_some, length, max, nat_le, MatchOption};
ghost use Rattle.canton_model.specs.Inbox.{notice_at};
ghost use Rattle.pruned_inbox.specs.Base;
ghost use Rattle.pruned_inbox.specs.Base.{is_settled_at};
ghost use Rattle.node_inbox.specs.InboxState.{params_of};

use crate::inbox::Inbox;

// The greatest place found at which all requests below it are decided: `place`, where those below it are so from `since` on and that isn't
// behind it, and else `best`.
fn best_at(place: u64, since: u64, best: u64) -> u64
    ensures { result ≡ (if nat_le since place then place else best) }
{
    if since <= place { place } else { best }
}

// The later of two places.
fn later_of(first: u64, second: u64) -> u64
    ensures { result ≡ max first second }
{
    first.max(second)
}

impl<'s> Inbox<'s> {
    // From where on the request at a place is decided and others are, too, which are decided from `since` on; none where it is undecided at
    // the cursor.
    fn since_decided(&self, place: u64, since: u64) -> Option<u64>
        requires within { since ≤ length self.now.items }
        requires received { is_some (notice_at self.now.items place) ≡ true }
        ensures { MatchOption result (is_settled_at (params_of self.now) self.now.items (length self.now.items) place ≡ false)
            (λ later. (later ≤ length self.now.items) × ((n : ℕ) → n ≤ length self.now.items
            → (nat_le since n && is_settled_at (params_of self.now) self.now.items n place) ≡ nat_le later n)) }
    {
        if !self.is_decided(place) {
            return None;
        }
        let later = self.decided_since(place);
        Some(later_of(since, later))
    }

    // From where on the request at a place is decided, if one was received there, and others are, too, which are decided from `since` on; none where
    // it is undecided at the cursor. Where no request was received there, nothing has to be decided.
    fn since_with(&self, place: u64, since: u64) -> Option<u64>
        requires { since ≤ length self.now.items }
        ensures { MatchOption result (is_settled_at (params_of self.now) self.now.items (length self.now.items) place ≡ false)
            (λ later. (later ≤ length self.now.items) × ((n : ℕ) → n ≤ length self.now.items
            → (nat_le since n && is_settled_at (params_of self.now) self.now.items n place) ≡ nat_le later n)) }
    {
        match self.outcome(place) {
            None => Some(since),
            Some(_) => self.since_decided(place, since),
        }
    }

    /// The base to which the inbox may be pruned: the greatest place below which every request that was received is decided at it. Goes through what
    /// was read from the present base on.
    pub fn next_base(&self) -> u64
        ensures { result ≡ Base.base (params_of self.now) self.now.items }
    {
        let mut best = self.base;
        // all requests below the place are decided from here on, and not before
        let mut since = self.base;
        'places: for place in self.base..self.cursor() {
            best = best_at(place, since, best);
            match self.since_with(place, since) {
                Some(later) => since = later,
                None => return best,
            }
        }
        self.cursor()
    }
}
