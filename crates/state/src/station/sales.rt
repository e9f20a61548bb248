// Tickets, in the order of their numbers.
ghost use Rattle.std.specs.Prelude.{◌≡◌, ◌≤◌, map, length};
ghost use Rattle.state.specs.Changes.{forgotten, stale};

use choosing::party::Party;
use pieces::names::Train;

// A ticket of a train is forgotten.
fn without_train(sale: Option<Party>, train: Train) -> Option<Party>
    ensures { result ≡ forgotten train sale }
{
    sale.filter(|party| party.train != train)
}

// Forgets the tickets of a train.
pub(super) fn forget_all(sales: &mut [Option<Party>], train: Train)
    ensures { sales.new ≡ map (forgotten train) sales.old }
{
    for sale in sales.iter_mut() {
        *sale = without_train(*sale, train);
    }
}

// How many tickets at the front do not stand any more.
pub(super) fn stale_count(sales: &[Option<Party>]) -> usize
    ensures value { result ≡ stale sales.now }
    ensures within { result ≤ length sales.now }
{
    for (count, sale) in sales.iter().enumerate() {
        if sale.is_some() {
            return count;
        }
    }
    sales.len()
}
