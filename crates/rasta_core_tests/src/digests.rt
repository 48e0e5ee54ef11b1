//! Digests, against those of other programs.

use md4::{STANDARD, digest_from};

/// A start that is not the standard's, and the digests from it: of an implementation in Python that was written from RFC 1320
/// alone.
const KEY: [u32; 4] = [0x0123_4567, 0x89ab_cdef, 0xfedc_ba98, 0x7654_3210];

/// How many bytes the longest message below has.
const LONGEST: usize = 1000;

/// The bytes 3, 10, 17 .., each 7 above the one before it, modulo 256.
fn sevens() -> [u8; LONGEST] {
    let mut bytes = [0; LONGEST];
    let mut next = 3u8;
    for byte in bytes.iter_mut() {
        *byte = next;
        next = next.wrapping_add(7);
    }
    bytes
}

/// A digest's 32 hex digits, as one number.
fn digits(start: [u32; 4], message: &[u8]) -> u128 {
    u128::from_be_bytes(digest_from(start, message))
}

#[test]
fn digests_of_the_test_suite_of_the_standard(rt: HostRuntime) {
    let eighty =
        b"12345678901234567890123456789012345678901234567890123456789012345678901234567890";
    let suite: [(&[u8], u128); 6] = [
        (b"", 0x31d6_cfe0_d16a_e931_b73c_59d7_e0c0_89c0),
        (b"a", 0xbde5_2cb3_1de3_3e46_245e_05fb_dbd6_fb24),
        (b"abc", 0xa448_017a_af21_d852_5fc1_0ae8_7aa6_729d),
        (b"message digest", 0xd913_0a81_6454_9fe8_1887_4806_e1c7_014b),
        (
            b"abcdefghijklmnopqrstuvwxyz",
            0xd79e_1c30_8aa5_bbcd_eea8_ed63_df41_2da9,
        ),
        (eighty, 0xe33b_4ddc_9c38_f219_9c3e_7b16_4fcc_0536),
    ];
    for (message, expected) in suite {
        assert!(rt; digits(STANDARD, message) == expected);
    }
}

/// Messages around the last that has room for the padding in its block, and around whole blocks. The digests from the standard's
/// start are OpenSSL's.
#[test]
fn digests_around_the_end_of_a_block_are_those_of_others(rt: HostRuntime) {
    let bytes = sevens();
    for (start, length, expected) in [
        (STANDARD, 55, 0x04d4_4dc3_dbdc_f760_4f25_9009_de6e_352f),
        (STANDARD, 56, 0xcdbc_435e_37e7_a468_d047_02cf_9eba_65bb),
        (STANDARD, 63, 0x45a8_744e_9987_8276_c479_27b0_1649_21f4),
        (STANDARD, 64, 0x8773_3dbe_6c3f_c125_ee30_897c_751b_d9d6),
        (STANDARD, 119, 0x2c38_b59b_e691_9f10_ba8b_a735_3ef2_88f7),
        (STANDARD, 120, 0x4414_f924_c8b7_da56_ae0d_be08_9698_9660),
        (STANDARD, 128, 0x15cb_31f3_af81_3097_fd7a_706b_860c_5e2e),
        (STANDARD, 1000, 0x9a27_d966_bf49_84d8_5978_62b1_c33b_fbba),
        (KEY, 0, 0xd2ee_7799_4d39_670c_ecd1_cc01_0986_8d4b),
        (KEY, 28, 0x899f_ba45_d387_ce38_b54e_2656_6ab2_134f),
        (KEY, 56, 0xf374_dbc2_b672_a87f_0868_a968_749a_12ff),
        (KEY, 64, 0x446c_082b_1ee8_a295_2eb7_c785_a2a2_1deb),
        (KEY, 200, 0x7b40_8f1d_af73_03dd_6a9c_19f5_3ab6_9f5b),
    ] {
        let (message, _) = bytes.split_at(LONGEST.min(length));
        assert!(rt; digits(start, message) == expected, "{length} bytes");
    }
}
