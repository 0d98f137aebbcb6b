//! The bits of bytes, looked up eight at a time.
ghost use Rattle.std.specs.Prelude.{◌≡◌, ◌*◌, ◌≤◌, ◌++◌, length, drop};
ghost use Rattle.orc_rle.specs.BitRun.{byte_bits, bits_of};

/// For each of these bytes its eight bits, the highest first.
macro_rules! bits_of_each {
    ($($byte:literal)*) => {
        [$([
            $byte / 128 % 2 == 1,
            $byte / 64 % 2 == 1,
            $byte / 32 % 2 == 1,
            $byte / 16 % 2 == 1,
            $byte / 8 % 2 == 1,
            $byte / 4 % 2 == 1,
            $byte / 2 % 2 == 1,
            $byte % 2 == 1,
        ]),*]
    };
}

/// The bits of every byte. To copy a row costs two instructions, where eight tests of a byte cost thirty.
#[rattlefmt::skip]
static BITS: [[bool; 8]; 256] = bits_of_each![
    0 1 2 3 4 5 6 7 8 9 10 11 12 13 14 15
    16 17 18 19 20 21 22 23 24 25 26 27 28 29 30 31
    32 33 34 35 36 37 38 39 40 41 42 43 44 45 46 47
    48 49 50 51 52 53 54 55 56 57 58 59 60 61 62 63
    64 65 66 67 68 69 70 71 72 73 74 75 76 77 78 79
    80 81 82 83 84 85 86 87 88 89 90 91 92 93 94 95
    96 97 98 99 100 101 102 103 104 105 106 107 108 109 110 111
    112 113 114 115 116 117 118 119 120 121 122 123 124 125 126 127
    128 129 130 131 132 133 134 135 136 137 138 139 140 141 142 143
    144 145 146 147 148 149 150 151 152 153 154 155 156 157 158 159
    160 161 162 163 164 165 166 167 168 169 170 171 172 173 174 175
    176 177 178 179 180 181 182 183 184 185 186 187 188 189 190 191
    192 193 194 195 196 197 198 199 200 201 202 203 204 205 206 207
    208 209 210 211 212 213 214 215 216 217 218 219 220 221 222 223
    224 225 226 227 228 229 230 231 232 233 234 235 236 237 238 239
    240 241 242 243 244 245 246 247 248 249 250 251 252 253 254 255
];

/// The eight bits of a byte, the highest first.
#[inline(always)]
pub fn bits_of_byte(byte: u8) -> [bool; 8]
    ensures { result ≡ byte_bits byte }
{
    BITS[usize::from(byte)]
}

/// Writes the bits of these bytes to `out`, which has room for just these.
///
/// It goes on by eight bytes, so that a turn of the loop costs little beside the rows that it copies.
pub fn unpack(bytes: &[u8], out: &mut [bool])
    requires { length out.old ≡ 8 * length bytes.now }
    ensures { out.new ≡ bits_of bytes.now }
{
    let mut left = bytes;
    let mut done = 0;
    while let Some((eight, behind)) = left.split_first_chunk::<8>() {
        let (_, open) = out.split_at_mut(8 * done);
        let (group, _) = open.split_at_mut(64);
        unpack_each(eight, group);
        left = behind;
        done += 8;
    }
    let (_, open) = out.split_at_mut(8 * done);
    unpack_each(left, open);
}

/// Does what `unpack` does, one byte at a time.
#[inline(always)]
fn unpack_each(bytes: &[u8], out: &mut [bool])
    requires { length out.old ≡ 8 * length bytes.now }
    ensures { out.new ≡ bits_of bytes.now }
{
    for (place, byte) in bytes.iter().enumerate() {
        let (_, open) = out.split_at_mut(8 * place);
        write_bits(*byte, open);
    }
}

/// Writes the bits of a byte to the front of `out`.
#[inline(always)]
fn write_bits(byte: u8, out: &mut [bool])
    requires { 8 ≤ length out.old }
    ensures { out.new ≡ byte_bits byte ++ drop 8 out.old }
{
    // An array is stored at once, where two slices would first be tested for an overlap.
    if let Some(eight) = out.first_chunk_mut::<8>() {
        *eight = bits_of_byte(byte);
    }
}
