// How many facts a ticket added and removed.
ghost use Rattle.std.specs.Prelude.{◌≡◌, ◌-◌, ◌≤◌};
ghost use Rattle.rdfs.specs.Numbers.{product};

// What an accepted ticket answers: how many facts it added and removed.
#[derive(Clone, Copy)]
pub struct Applied {
    pub added: u16,
    pub removed: u16,
}

// How many more one is than the other; 0 if it is not more.
fn excess(one: usize, other: usize) -> u16
    requires bound { one ≤ product.most }
    ensures answer { result ≡ one - other }
{
    one.saturating_sub(other) as u16
}

// The counts of a ticket, by the numbers of facts before it and after it.
pub fn counts_of(before: usize, after: usize) -> Applied
    requires before { before ≤ product.most }
    requires after { after ≤ product.most }
    ensures answer { result ≡ record { added = after - before; removed = before - after } }
{
    Applied {
        added: excess(after, before),
        removed: excess(before, after),
    }
}
