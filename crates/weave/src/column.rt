// One column of rows of symbols.
ghost use Rattle.std.specs.Prelude.{◌≡◌, ◌*◌, ◌<◌, length, get_or};

// Column c of rows of `columns` symbols: a symbol of each row. Of a woven area: frame c.
#[derive(Clone, Copy)]
pub struct Column<'a> {
    pub rows: &'a [u8],
    pub columns: usize,
    pub c: usize,
    // How many rows there are.
    pub long: usize,
    pub ghost within: { c < columns },
    pub ghost whole: { length rows.now ≡ long * columns },
}

impl Column<'_> {
    ghost use Rattle.weave.specs.parts.Columns.{symbols_of};

    // Symbol i.
    pub fn symbol(&self, i: usize) -> u8
        requires { i < self.now.long }
        ensures { result ≡ get_or (symbols_of self.now) i 0 }
    {
        self.rows[i * self.columns + self.c]
    }

    // The column, in an area of its size.
    pub fn take(&self, out: &mut [u8])
        requires { length out.old ≡ self.now.long }
        ensures { out.new ≡ symbols_of self.now }
    {
        // A copy: behind the reference it would be read anew for each symbol.
        let column = *self;
        for (i, symbol) in out.iter_mut().enumerate() {
            *symbol = column.symbol(i);
        }
    }
}
