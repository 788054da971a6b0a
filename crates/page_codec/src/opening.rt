// Opening a stored page.
ghost use Rattle.std.specs.Prelude.{◌≡◌, ◌≢◌, ℕ, ◌+◌, ◌*◌, ◌^◌, ◌<◌, ◌≤◌, ◌↔◌, ◌++◌, true, false, length, slice_index_or, take, drop, IfErr, IfOk, IsOk, IsTrue};
ghost use Rattle.cbc_mode.specs.Cbc.{cbc_decrypted};
ghost use Rattle.cipher_profile.specs.Profile.{is_plain, usable};
ghost use Rattle.page_codec.specs.Page.{accepts, begun, cipher_start, deciphered, fits, magic, plain_head, opened};
ghost use Rattle.page_codec.specs.Pages.{IsOpenedIf};

use crate::codec::{Codec, IV_LEN, MAGIC, SALT_LEN};
use cbc_mode::cbc_decrypt;

/// The tag of a page was not right.
#[derive(Clone, Copy, Debug, PartialEq, Eq)]
pub struct TagRefused {
    /// The page's number, from 1.
    pub page: u32,
}

impl Codec {
    /// Opens stored page n, numbered from 1, where its tag is right. A profile without tags takes every page; a page of a plain file is
    /// copied.
    #[tactic(auto, unfolding(crate::specs::Page::opened))]
    pub fn open_page(&self, n: u32, stored: &[u8], plain: &mut [u8]) -> Result<(), TagRefused>
        requires number { 1 ≤ n }
        requires stored_size { length stored.now ≡ self.now.profile.page_size }
        requires plain_size { length plain.old ≡ usable self.now.profile }
        ensures accepted { IsOk result ↔ IsTrue (accepts self.now n stored.now) }
        ensures opened { IfOk result (λ _. plain.new ≡ opened self.now n stored.now) }
        ensures page { IfErr result (λ refused. refused.page ≡ n) }
        ensures kept { IfErr result (λ _. plain.new ≡ plain.old) }
        ensures without_tags { self.now.profile.tag_len ≡ 0 → IsOk result }
    {
        self.check_tag(n, stored)?;
        if self.profile.is_plain() {
            let _usable = self.profile.usable();
            plain.copy_from_slice(stored);
        } else {
            self.decipher(n, stored, plain);
        }
        Ok(())
    }

    /// Opens stored page n, numbered from 1, where it stands: the plain page takes the place of the ciphertext, before the reserve.
    /// A profile without tags takes every page; a page of a plain file stays as it is.
    #[tactic(auto, unfolding(crate::specs::Page::opened))]
    pub fn open_in_place(&self, n: u32, page: &mut [u8]) -> Result<(), TagRefused>
        requires number { 1 ≤ n }
        requires size { length page.old ≡ self.now.profile.page_size }
        ensures accepted { IsOk result ↔ IsTrue (accepts self.now n page.old) }
        ensures opened { IfOk result (λ _. take (usable self.now.profile) page.new ≡ opened self.now n page.old) }
        ensures reserve { IfOk result (λ _. drop (usable self.now.profile) page.new ≡ drop (usable self.now.profile) page.old) }
        ensures page { IfErr result (λ refused. refused.page ≡ n) }
        ensures kept { IfErr result (λ _. page.new ≡ page.old) }
        ensures without_tags { self.now.profile.tag_len ≡ 0 → IsOk result }
    {
        self.check_tag(n, page)?;
        self.open_accepted(n, page);
        Ok(())
    }

    /// Opens stored page n where it stands, where it is accepted.
    pub(crate) fn open_if(&self, held: bool, n: u32, page: &mut [u8])
        requires size { length page.old ≡ self.now.profile.page_size }
        ensures size { length page.new ≡ length page.old }
        ensures opened { IsOpenedIf self.now n held page.old page.new }
    {
        if held {
            self.open_accepted(n, page);
        }
    }

    // Opens stored page n where it stands, whatever its tag is.
    #[tactic(auto, unfolding(crate::specs::Page::opened))]
    fn open_accepted(&self, n: u32, page: &mut [u8])
        requires size { length page.old ≡ self.now.profile.page_size }
        ensures opened { take (usable self.now.profile) page.new ≡ opened self.now n page.old }
        ensures reserve { drop (usable self.now.profile) page.new ≡ drop (usable self.now.profile) page.old }
    {
        if !self.profile.is_plain() {
            self.decipher_in_place(n, page);
        }
    }

    /// Opens stored page 1 where it stands, and says so, where the key fits its file. Its tag is looked at once.
    #[tactic(auto, unfolding(crate::specs::Page::opened))]
    pub fn open_first(&self, page: &mut [u8]) -> bool
        requires { length page.old ≡ self.now.profile.page_size }
        ensures fits { result ≡ fits self.now page.old }
        ensures opened { result ≡ true → take (usable self.now.profile) page.new ≡ opened self.now 1 page.old }
        ensures kept { result ≡ false → page.new ≡ page.old }
    {
        if !self.key_fits(page) {
            return false;
        }
        if !self.profile.is_plain() {
            self.decipher_in_place(1, page);
        }
        true
    }

    // Whether the tag of stored page n is right.
    fn check_tag(&self, n: u32, stored: &[u8]) -> Result<(), TagRefused>
        requires number { 1 ≤ n }
        requires size { length stored.now ≡ self.now.profile.page_size }
        ensures accepted { IsOk result ↔ IsTrue (accepts self.now n stored.now) }
        ensures page { IfErr result (λ refused. refused.page ≡ n) }
        ensures without_tags { self.now.profile.tag_len ≡ 0 → IsOk result }
    {
        if self.profile.tag_len > 0 && !self.tag_holds(n, stored) {
            return Err(TagRefused { page: n });
        }
        Ok(())
    }

    /// Decrypts stored page n of an encrypted file, whatever its tag is.
    pub(crate) fn decipher(&self, n: u32, stored: &[u8], plain: &mut [u8])
        requires stored_size { length stored.now ≡ self.now.profile.page_size }
        requires plain_size { length plain.old ≡ usable self.now.profile }
        requires ciphered { is_plain self.now.profile ≡ false }
        ensures { plain.new ≡ deciphered self.now n stored.now }
    {
        let usable = self.profile.usable();
        let mut iv = [0u8; IV_LEN];
        iv.copy_from_slice(&stored[usable..usable + IV_LEN]);
        plain.copy_from_slice(&stored[..usable]);
        self.decipher_content(n, &iv, plain);
    }

    // The same where the page stands.
    fn decipher_in_place(&self, n: u32, page: &mut [u8])
        requires size { length page.old ≡ self.now.profile.page_size }
        requires ciphered { is_plain self.now.profile ≡ false }
        ensures opened { take (usable self.now.profile) page.new ≡ deciphered self.now n page.old }
        ensures reserve { drop (usable self.now.profile) page.new ≡ drop (usable self.now.profile) page.old }
    {
        let (content, reserve) = page.split_at_mut(self.profile.usable());
        let mut iv = [0u8; IV_LEN];
        iv.copy_from_slice(&reserve[..IV_LEN]);
        self.decipher_content(n, &iv, content);
    }

    // The content of stored page n becomes the plain page, under this IV.
    fn decipher_content(&self, n: u32, iv: &[u8; IV_LEN], content: &mut [u8])
        requires { length content.old ≡ usable self.now.profile }
        ensures { content.new ≡ plain_head self.now.profile n content.old
            ++ cbc_decrypted self.now.keys.enc iv.now (drop (cipher_start self.now.profile n) content.old) }
    {
        let start = self.cipher_start(n);
        let _usable = self.profile.usable();
        let (head, text) = content.split_at_mut(start);
        begin_with(n, &MAGIC, head);
        cbc_decrypt(&self.cipher, iv, text);
    }
}

// What stands before the ciphertext, with these bytes in front on page 1.
pub(crate) fn begin_with(n: u32, first: &[u8; SALT_LEN], head: &mut [u8])
    requires long { n ≡ 1 → 16 ≤ length head.old }
    requires others { n ≢ 1 → length head.old ≡ 0 }
    ensures value { head.new ≡ take (length head.old) (begun first.now head.old) }
    ensures size { length first.now ≡ 16 }
{
    if n == 1 {
        let (begin, _) = head.split_at_mut(SALT_LEN);
        begin.copy_from_slice(first);
    }
}
