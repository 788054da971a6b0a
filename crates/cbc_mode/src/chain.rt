// The two directions.
ghost use Rattle.std.specs.Prelude.{◌≡◌, ◌%◌, length};
ghost use Rattle.cbc_mode.specs.Cbc.{cbc_decrypted, cbc_encrypted};

use crate::block::Block;
use crate::piece::{PIECE, decrypt_piece};
use aes_block::Aes256;

/// Encrypts a text of whole blocks in place.
pub fn cbc_encrypt(aes: &Aes256, iv: &[u8; 16], text: &mut [u8])
    requires { length text.old % 16 ≡ 0 }
    ensures value { text.new ≡ cbc_encrypted aes.now iv.now text.old }
    ensures decrypts_to { cbc_decrypted aes.now iv.now text.new ≡ text.old }
{
    aes.key_law();
    let mut last = Block::at(iv, 0);
    'encryption: for i in 0..text.len() / 16 {
        let mut block = Block::at(text, i).xor(last).to_bytes();
        aes.encrypt(&mut block);
        last = Block::at(&block, 0);
        last.put(text, i);
    }
}

/// Decrypts a text of whole blocks in place.
pub fn cbc_decrypt(aes: &Aes256, iv: &[u8; 16], text: &mut [u8])
    requires { length text.old % 16 ≡ 0 }
    ensures value { text.new ≡ cbc_decrypted aes.now iv.now text.old }
    ensures encrypts_to { cbc_encrypted aes.now iv.now text.new ≡ text.old }
{
    aes.key_law();
    let mut before = *iv;
    'pieces: for p in 0..(text.len() / 16 + 63) / 64 {
        let start = PIECE * p;
        let end = (start + PIECE).min(text.len());
        let last = Block::at(text, end / 16 - 1).to_bytes();
        decrypt_piece(aes, &before, &mut text[start..end]);
        before = last;
    }
}
