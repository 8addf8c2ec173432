// The fields of 01 and 02 with q elements, q chosen at run time: five, eight or sixteen. A symbol is a `u8` below q.
// Read-only in the source are a field's powers of α and their exponents. The outermost call makes the table of products and inverses from them, in its working
// memory, and lends it down.
#![tactic(auto)]

ghost use Rattle.std.specs.Prelude.{◌≡◌, ℕ, ◌<◌, ◌≤◌, length, drop};
ghost use Rattle.algebra.specs.Ops.{sub};
ghost use Rattle.algebra.specs.Polynomial as polynomial;
ghost use Rattle.field.specs.parts.Operations.{Good, Is};
ghost use Rattle.field.specs.Fields.{ops_of};
ghost use Rattle.field.specs.Symbols.{Symbols, known_symbol};
ghost use Rattle.field.specs.parts.Products.{ListsOf, ProductsOf};
ghost use Rattle.field.specs.parts.Sequences.{at};

// The powers of α from α^0 on, and the exponents: place α^i holds i. 0 is no power of α, and its place is never read.
const POWERS_5: [u8; 4] = [1, 2, 4, 3];

const EXPONENTS_5: [u8; 5] = [0, 0, 1, 3, 2];

const POWERS_8: [u8; 7] = [1, 2, 4, 3, 6, 7, 5];

const EXPONENTS_8: [u8; 8] = [0, 0, 1, 3, 2, 6, 4, 5];

const POWERS_16: [u8; 15] = [1, 2, 4, 8, 3, 6, 12, 11, 5, 10, 7, 14, 15, 13, 9];

const EXPONENTS_16: [u8; 16] = [0, 0, 1, 4, 2, 8, 5, 10, 3, 14, 9, 7, 6, 13, 11, 12];

// The products of a field, with room for the largest: a × b in row a, place b. The last row holds the inverses: 1/a at place a, and 0 at place 0.
pub type Products = [[u8; 16]; 17];

// The row of the inverses.
const INVERSES: usize = 16;

// How many coefficients a call of `value` takes where there are so many. As a constant it lets the compiler write the loop over them out.
const PART: usize = 7;

// A row of the table: what the closure gives of each symbol, in its place.
fn row<F: Fn(u8) -> u8>(q: usize, of: F) -> [u8; 16]
    requires few { q ≤ 16 }
    requires given { (a : ℕ) → a < q → F.pre of a }
    ensures { (a : ℕ) → a < q → F.post of a (at result a) }
{
    let mut row = [0; 16];
    for (a, symbol) in row[..q].iter_mut().enumerate() {
        *symbol = of(a as u8);
    }
    row
}

// The read-only lists of the field with q elements: the powers of α, and their exponents.
struct Lists<'a> {
    q: usize,
    powers: &'a [u8],
    exponents: &'a [u8],
    ghost good: { Good q },
    ghost lists: { ListsOf q powers.now exponents.now },
}

impl Lists<'_> {
    // a × b: the power at the sum of the exponents, counted round the list. Products with zero are zero.
    fn product(&self, a: u8, b: u8) -> u8
        requires { (a < self.now.q) × (b < self.now.q) }
        ensures { Is self.now.q result ((ops_of self.now.q).mul a b) }
    {
        if a == 0 {
            return 0;
        }
        if b == 0 {
            return 0;
        }
        let n = self.q - 1;
        let sum = self.exponents[a as usize] as usize + self.exponents[b as usize] as usize;
        if sum < n {
            self.powers[sum]
        } else {
            self.powers[sum - n]
        }
    }

    // 1/a: the power whose exponent and that of a add up to q - 1, since α^(q - 1) is 1. 0 counts as its own inverse, and 1 is its own.
    fn inverse(&self, a: u8) -> u8
        requires { a < self.now.q }
        ensures { Is self.now.q result ((ops_of self.now.q).inv a) }
    {
        if a < 2 {
            return a;
        }
        let exponent = self.exponents[a as usize] as usize;
        self.powers[self.q - 1 - exponent]
    }

    // The table: row a holds the multiples of a, the last the inverses.
    fn table(&self) -> Products
        ensures { ProductsOf self.now.q result }
    {
        let mut products: Products = [[0; 16]; 17];
        for (a, multiples) in products[..self.q].iter_mut().enumerate() {
            *multiples = row(self.q, |b| self.product(a as u8, b));
        }
        products[INVERSES] = row(self.q, |b| self.inverse(b));
        products
    }
}

// The table of the field with q elements: the one place that tells the fields' lists apart. Each call has its q as a constant: from constants the compiler
// works small tables out itself (docs/PERFORMANCE.md, "Products from lists").
pub fn products(q: usize) -> Products
    requires { Good q }
    ensures { ProductsOf q result }
{
    match q {
        5 => Lists {
            q: 5,
            powers: &POWERS_5,
            exponents: &EXPONENTS_5,
        }
        .table(),
        8 => Lists {
            q: 8,
            powers: &POWERS_8,
            exponents: &EXPONENTS_8,
        }
        .table(),
        _ => Lists {
            q: 16,
            powers: &POWERS_16,
            exponents: &EXPONENTS_16,
        }
        .table(),
    }
}

// A field at run time: its q, and its table of products and inverses. The outermost call makes it and lends it down.
#[derive(Drop)]
pub struct Field {
    pub q: usize,
    pub products: Products,
    pub ghost good: { Good q },
    pub ghost table: { ProductsOf q products },
}

impl Field {
    // The field with q elements.
    pub fn new(q: usize) -> Field
        requires { Good q }
        ensures { result.q ≡ q }
    {
        Field {
            q,
            products: products(q),
        }
    }

    // a + b
    pub fn add(&self, a: u8, b: u8) -> u8
        requires { (a < self.now.q) × (b < self.now.q) }
        ensures { Is self.now.q result ((ops_of self.now.q).add a b) }
    {
        if self.q != 5 {
            return a ^ b;
        }
        let sum = a + b;
        if sum < 5 { sum } else { sum - 5 }
    }

    // A received byte as a symbol: 0 for an unknown one.
    pub fn known_symbol(&self, received: u8) -> u8
        ensures { Is self.now.q result (known_symbol self.now.q received) }
    {
        if usize::from(received) < self.q {
            received
        } else {
            0
        }
    }

    // -a
    pub fn negate(&self, a: u8) -> u8
        requires { a < self.now.q }
        ensures { Is self.now.q result ((ops_of self.now.q).neg a) }
    {
        if self.q != 5 {
            return a;
        }
        if a == 0 { 0 } else { 5 - a }
    }

    // a - b
    pub fn subtract(&self, a: u8, b: u8) -> u8
        requires { (a < self.now.q) × (b < self.now.q) }
        ensures { Is self.now.q result (sub (ops_of self.now.q) a b) }
    {
        self.add(a, self.negate(b))
    }

    // a × b
    pub fn multiply(&self, a: u8, b: u8) -> u8
        requires { (a < self.now.q) × (b < self.now.q) }
        ensures { Is self.now.q result ((ops_of self.now.q).mul a b) }
    {
        self.products[a as usize][b as usize]
    }

    // 1 / a, and 0 for a = 0
    pub fn inverse(&self, a: u8) -> u8
        requires { a < self.now.q }
        ensures { Is self.now.q result ((ops_of self.now.q).inv a) }
    {
        self.products[INVERSES][a as usize]
    }

    // a + x × b
    pub fn add_product(&self, a: u8, x: u8, b: u8) -> u8
        requires { (a < self.now.q) × (x < self.now.q) × (b < self.now.q) }
        ensures { Is self.now.q result ((ops_of self.now.q).add a ((ops_of self.now.q).mul x b)) }
    {
        self.add(a, self.multiply(x, b))
    }

    // The value of the polynomial c at x from that of its rest, the coefficients from `count` on: those before them are taken from the last down.
    fn value_from_rest(&self, c: &[u8], count: usize, x: u8, rest: u8) -> u8
        requires { Symbols self.now.q c.now × (count ≤ length c.now) × (x < self.now.q) × Is self.now.q rest (polynomial.value (ops_of self.now.q) (drop count c.now) x) }
        ensures { Is self.now.q result (polynomial.value (ops_of self.now.q) c.now x) }
    {
        let mut sum = rest;
        for i in (0..count).rev() {
            sum = self.add_product(c[i], x, sum);
        }
        sum
    }

    // The value of the polynomial with the coefficients c, lowest power first, at x: "The value of a polynomial without coefficients is 0;
    // otherwise it is the first coefficient plus the point times the value of the rest." Where there are seven or more, a call takes seven: a call for each costs
    // more than its product (docs/PERFORMANCE.md, "Before and after").
    pub fn value(&self, c: &[u8], x: u8) -> u8
        requires { Symbols self.now.q c.now × (x < self.now.q) }
        ensures { Is self.now.q result (polynomial.value (ops_of self.now.q) c.now x) }
    {
        if c.len() == 0 {
            return 0;
        }
        if c.len() < PART {
            let rest = self.value(&c[1..], x);
            return self.add_product(c[0], x, rest);
        }
        let rest = self.value(&c[PART..], x);
        self.value_from_rest(c, PART, x, rest)
    }
}
