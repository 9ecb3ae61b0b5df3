// A case: fields parted by colons. A field that is missing reads as an empty one.
ghost use Rattle.std.specs.Prelude.{◌≤◌, length};

#[derive(Clone, Copy)]
pub struct Case<'a> {
    text: &'a [u8],
}

// The table and the anchored bytes of a pool.
#[derive(Clone, Copy)]
pub struct Pool<'r> {
    pub starts: &'r [u16],
    pub links: &'r [u16],
    pub anchored: &'r [u8],
}

// A sheet of levels and layers.
#[derive(Clone, Copy)]
pub struct Sheet<'r> {
    pub levels: &'r [u16],
    pub layers: &'r [u16],
}

impl<'a> Case<'a> {
    pub fn new(text: &'a [u8]) -> Case<'a> {
        Case { text }
    }

    pub fn field(&self, k: usize) -> &'a [u8] {
        piece(self.text, b':', k)
    }

    // The one number of a field.
    pub fn number(&self, k: usize) -> u16 {
        value(self.field(k))
    }

    // The numbers of a field, each behind a space, as many as there is room for, in its front.
    pub fn numbers<'r>(&self, k: usize, room: &'r mut [u16]) -> &'r mut [u16]
        ensures { length result.now ≤ length room.old }
    {
        self.list(k, room, value)
    }

    // The same, where each number is a byte.
    pub fn bytes<'r>(&self, k: usize, room: &'r mut [u8]) -> &'r mut [u8]
        ensures { length result.now ≤ length room.old }
    {
        self.list(k, room, byte)
    }

    // A number is behind each space of a field; the first that has no digits ends them.
    fn list<'r, T: Drop, F: Fn(&[u8]) -> T>(
        &self,
        k: usize,
        room: &'r mut [T],
        number: F,
    ) -> &'r mut [T]
        requires { F.IsAlwaysCallable number }
        ensures { length result.now ≤ length room.old }
    {
        let mut pieces = self.field(k).split(|byte| *byte == b' ').skip(1);
        for count in 0..room.len() {
            let digits = pieces.next().unwrap_or(b"");
            if digits.is_empty() {
                return &mut room[..count];
            }
            room[count] = number(digits);
        }
        room
    }

    // Fields 1 to 3, each in a room of its own.
    pub fn pool<'r>(
        &self,
        starts: &'r mut [u16],
        links: &'r mut [u16],
        anchored: &'r mut [u8],
    ) -> Pool<'r> {
        Pool {
            starts: self.numbers(1, starts),
            links: self.numbers(2, links),
            anchored: self.bytes(3, anchored),
        }
    }

    // Fields 4 and 5 likewise.
    pub fn sheet<'r>(&self, levels: &'r mut [u16], layers: &'r mut [u16]) -> Sheet<'r> {
        Sheet {
            levels: self.numbers(4, levels),
            layers: self.numbers(5, layers),
        }
    }
}

// Piece k of a text that a mark parts; empty where there is none.
pub fn piece(text: &[u8], mark: u8, k: usize) -> &[u8] {
    text.split(|byte| *byte == mark).nth(k).unwrap_or(b"")
}

// The number that the digits spell, and past 65,535 its low bits. The low four bits of a byte are its digit, so a space counts as a zero.
pub fn value(digits: &[u8]) -> u16 {
    digits.iter().fold(0, |number: u16, digit| {
        number.wrapping_mul(10).wrapping_add((digit % 16) as u16)
    })
}

// The same, where the number is a byte.
pub fn byte(digits: &[u8]) -> u8 {
    (value(digits) % 256) as u8
}
