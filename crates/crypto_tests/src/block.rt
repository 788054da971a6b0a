use aes_block::Aes256;

// FIPS 197, appendix C.3.
#[test]
fn encrypts_and_decrypts_the_example_of_the_standard(rt: HostRuntime) {
    let mut key = [0u8; 32];
    for i in 0..32u8 {
        key[i as usize] = i;
    }
    let plain = [
        0x00u8, 0x11, 0x22, 0x33, 0x44, 0x55, 0x66, 0x77, 0x88, 0x99, 0xaa, 0xbb, 0xcc, 0xdd, 0xee,
        0xff,
    ];
    let encrypted = [
        0x8eu8, 0xa2, 0xb7, 0xca, 0x51, 0x67, 0x45, 0xbf, 0xea, 0xfc, 0x49, 0x90, 0x4b, 0x49, 0x60,
        0x89,
    ];
    let aes = Aes256::new(&key);
    let mut block = plain;
    aes.encrypt(&mut block);
    assert_eq!(rt; block, encrypted);
    aes.decrypt(&mut block);
    assert_eq!(rt; block, plain);
}
