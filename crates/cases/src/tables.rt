// The tables that are tried more than once, and how any is made of its rows.

ghost use Rattle.std.specs.Prelude.{◌≡◌, [], ◌∷◌, take, replicate};
ghost use Rattle.allowance.specs.Cases.{table_of};

use table::Table;

// Rows as C, T, D. A table has room for 16, and what is behind them is left out.
pub fn table_of(rows: &[(u16, u16, u16)]) -> Table
    ensures { result ≡ table_of (take 16 rows.now) }
{
    let n = rows.len().min(16);
    let mut x = Table::zeros(n);
    for (i, &(c, t, d)) in rows[..n].iter().enumerate() {
        x.c[i] = c;
        x.t[i] = t;
        x.d[i] = d;
    }
    x
}

// The table of document 01's listing.
pub fn first() -> Table
    ensures { result ≡ table_of ((1, 3, 3) ∷ (1, 4, 4) ∷ (1, 6, 6) ∷ []) }
{
    table_of(&[(1, 3, 3), (1, 4, 4), (1, 6, 6)])
}

// Refused, since its periods fall.
pub fn falling() -> Table
    ensures { result ≡ table_of ((1, 5, 5) ∷ (1, 4, 4) ∷ []) }
{
    table_of(&[(1, 5, 5), (1, 4, 4)])
}

// As many rows as there can be, with the longest periods.
pub fn full() -> Table
    ensures { result ≡ table_of (replicate 16 (1, 4096, 4096)) }
{
    table_of(&[(1, 4096, 4096); 16])
}
