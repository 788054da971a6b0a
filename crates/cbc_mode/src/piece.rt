// A piece of a text, decrypted with the block before it as its IV: by planes, which take as long for one
// block as for 64, or by tables, a block after another.
ghost use Rattle.std.specs.Prelude.{◌≡◌, ◌%◌, ◌≤◌, length};
ghost use Rattle.cbc_mode.specs.Cbc.{cbc_decrypted};

use crate::block::Block;
use aes_block::Aes256;
use aes_lanes::{block_of, decrypt_blocks};

/// The most bytes of a piece: 64 blocks.
pub const PIECE: usize = 1024;

// The fewest bytes that planes decrypt sooner than tables do: 30 blocks.
const FEWEST: usize = 480;

/// Decrypts a piece in place.
pub fn decrypt_piece(aes: &Aes256, iv: &[u8; 16], piece: &mut [u8])
    requires whole { length piece.old % 16 ≡ 0 }
    requires most { length piece.old ≤ 1024 }
    ensures { piece.new ≡ cbc_decrypted aes.now iv.now piece.old }
{
    if piece.len() < FEWEST {
        decrypt_by_tables(aes, iv, piece)
    } else {
        decrypt_by_planes(aes, iv, piece)
    }
}

fn decrypt_by_tables(aes: &Aes256, iv: &[u8; 16], piece: &mut [u8])
    requires { length piece.old % 16 ≡ 0 }
    ensures { piece.new ≡ cbc_decrypted aes.now iv.now piece.old }
{
    let mut before = Block::at(iv, 0);
    'decryption: for i in 0..piece.len() / 16 {
        let stored = Block::at(piece, i);
        let mut block = stored.to_bytes();
        aes.decrypt(&mut block);
        Block::at(&block, 0).xor(before).put(piece, i);
        before = stored;
    }
}

fn decrypt_by_planes(aes: &Aes256, iv: &[u8; 16], piece: &mut [u8])
    requires whole { length piece.old % 16 ≡ 0 }
    requires most { length piece.old ≤ 1024 }
    ensures { piece.new ≡ cbc_decrypted aes.now iv.now piece.old }
{
    let mut padded = [0u8; PIECE];
    padded[..piece.len()].copy_from_slice(piece);
    let blocks = decrypt_blocks(aes, &padded);
    let mut before = Block::at(iv, 0);
    'decryption: for i in 0..piece.len() / 16 {
        let encrypted = Block::at(piece, i);
        let decrypted = block_of(&blocks, i);
        Block::at(&decrypted, 0).xor(before).put(piece, i);
        before = encrypted;
    }
}
