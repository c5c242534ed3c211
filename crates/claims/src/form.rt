// R49: the form of a claim's record, as a value that code and definitions share: its width, and where its fields stand.

use std::marker::Model;

// The first byte of a field, and how many it has.
#[derive(Clone, Copy)]
pub struct Field {
    pub at: usize,
    pub bytes: usize,
}

#[derive(Clone, Copy)]
pub struct Form {
    pub width: usize,
    pub m: Field,
    pub a: Field,
    pub estimate: Field,
    pub n: Field,
    pub depth: Field,
    pub reserved: Field,
}

// Every form can be read: its fields lie in the record, and fit the numbers that they are read to.
impl Model for Form {
    ghost use Rattle.claims.specs.Form as forms;

    ghost Value = { forms.Form };

    ghost view = { λ f. record {
      width = f.width;
      m = f.m;
      a = f.a;
      estimate = f.estimate;
      n = f.n;
      depth = f.depth;
      reserved = f.reserved;
    } };

    ghost invariant = { λ f. forms.FormIn (view f) };

    ghost inverse = { λ f. record {
      width = f.width;
      m = f.m;
      a = f.a;
      estimate = f.estimate;
      n = f.n;
      depth = f.depth;
      reserved = f.reserved;
    } };
}

// The record of 20 bytes.
pub const TWENTY: Form = Form {
    width: 20,
    m: Field { at: 0, bytes: 4 },
    a: Field { at: 4, bytes: 4 },
    estimate: Field { at: 8, bytes: 8 },
    n: Field { at: 16, bytes: 2 },
    depth: Field { at: 18, bytes: 1 },
    reserved: Field { at: 19, bytes: 1 },
};
