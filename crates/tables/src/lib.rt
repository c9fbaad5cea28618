// The tables of the compound function, as patterns of f64: `compoundf.rs` of pxfm 0.1.30 (NOTICE).
// Each is a type, and `PolyP::at(6)` is entry 6 of P; two pairs of them are read at one index each, and
// stand apart as in the source and in document 01. Its patterns are a `static`, since an indexed
// `const` array would be built anew on the stack at every call.
#![tactic(auto)]

ghost use Rattle.std.specs.Prelude.{◌≡◌, ◌<◌, refl, List, ℕ, length, IsTrue};
ghost use Rattle.std.specs.List.{list_all};
ghost use Rattle.tables.specs.Tables as spec;
ghost use Rattle.tables.specs.Rules.{Rules};

use double_double::DoubleDouble;

// A table of numbers.
pub trait Table {
    // The patterns, lowest index first, and how many there are.
    ghost patterns: { List ℕ };

    ghost size: { ℕ };

    fn patterns() -> &'static [u64]
        ensures { result.now ≡ patterns };

    ghost has_size: { length patterns ≡ size };

    // No pattern is a NaN's.
    ghost has_numbers: { IsTrue (list_all spec.is_number patterns) };

    // Entry i.
    final fn at(i: u64) -> f64
        requires { i < size }
        ensures { result ≡ spec.entry patterns i }
    {
        f64::from_bits(Self::patterns()[i as usize])
    }
}

// A table of double-doubles; the pattern of one is the pair of lo's and hi's. A trait of its own: over
// one trait for both, each entry would be read through a further trait, of the patterns.
pub trait PairTable {
    // The patterns, lowest index first, and how many there are.
    ghost patterns: { List (ℕ × ℕ) };

    ghost size: { ℕ };

    fn patterns() -> &'static [(u64, u64)]
        ensures { result.now ≡ patterns };

    ghost has_size: { length patterns ≡ size };

    // No half of a pattern is a NaN's.
    ghost has_numbers: { IsTrue (list_all spec.is_pair patterns) };

    // Entry i.
    final fn at(i: u64) -> DoubleDouble
        requires { i < size }
        ensures { result ≡ spec.pair_entry patterns i }
    {
        let (lo, hi) = Self::patterns()[i as usize];
        DoubleDouble {
            lo: f64::from_bits(lo),
            hi: f64::from_bits(hi),
        }
    }
}

// LOG2P1_COMPOUNDF_INV: entry i is near 1/t for t from 1/2 + (i + 13)/64 to 1/2 + (i + 14)/64.
pub struct Log2p1CompoundfInv;

impl Table for Log2p1CompoundfInv {
    ghost patterns = { spec.log2p1_compoundf_inv };

    ghost size = { 46 };

    #[tactic(auto, unfolding(crate::specs::Tables::log2p1_compoundf_inv))]
    fn patterns() -> &'static [u64] {
        &LOG2P1_COMPOUNDF_INV
    }

    ghost has_size = { unfold spec.log2p1_compoundf_inv in refl };

    ghost has_numbers = { unfold spec.log2p1_compoundf_inv in refl };
}

static LOG2P1_COMPOUNDF_INV: [u64; 46] = [
    0x3ff6_8000_0000_0000,
    0x3ff6_0000_0000_0000,
    0x3ff5_8000_0000_0000,
    0x3ff5_0000_0000_0000,
    0x3ff4_c000_0000_0000,
    0x3ff4_4000_0000_0000,
    0x3ff4_0000_0000_0000,
    0x3ff3_8000_0000_0000,
    0x3ff3_4000_0000_0000,
    0x3ff2_c000_0000_0000,
    0x3ff2_8000_0000_0000,
    0x3ff2_0000_0000_0000,
    0x3ff1_c000_0000_0000,
    0x3ff1_8000_0000_0000,
    0x3ff1_4000_0000_0000,
    0x3ff1_0000_0000_0000,
    0x3ff0_c000_0000_0000,
    0x3ff0_8000_0000_0000,
    0x3ff0_0000_0000_0000,
    0x3ff0_0000_0000_0000,
    0x3fef_4000_0000_0000,
    0x3fee_c000_0000_0000,
    0x3fee_4000_0000_0000,
    0x3fee_0000_0000_0000,
    0x3fed_8000_0000_0000,
    0x3fed_0000_0000_0000,
    0x3fec_a000_0000_0000,
    0x3fec_4000_0000_0000,
    0x3feb_e000_0000_0000,
    0x3feb_8000_0000_0000,
    0x3feb_2000_0000_0000,
    0x3fea_c000_0000_0000,
    0x3fea_8000_0000_0000,
    0x3fea_2000_0000_0000,
    0x3fe9_c000_0000_0000,
    0x3fe9_8000_0000_0000,
    0x3fe9_2000_0000_0000,
    0x3fe8_c000_0000_0000,
    0x3fe8_8000_0000_0000,
    0x3fe8_4000_0000_0000,
    0x3fe8_0000_0000_0000,
    0x3fe7_c000_0000_0000,
    0x3fe7_6000_0000_0000,
    0x3fe7_2000_0000_0000,
    0x3fe6_e000_0000_0000,
    0x3fe6_a000_0000_0000,
];

// LOG2P1_COMPOUNDF_LOG2_INV: entry i is near -log2 of entry i of the table above.
pub struct Log2p1CompoundfLog2Inv;

impl PairTable for Log2p1CompoundfLog2Inv {
    ghost patterns = { spec.log2p1_compoundf_log2_inv };

    ghost size = { 46 };

    #[tactic(auto, unfolding(crate::specs::Tables::log2p1_compoundf_log2_inv))]
    fn patterns() -> &'static [(u64, u64)] {
        &LOG2P1_COMPOUNDF_LOG2_INV
    }

    ghost has_size = { unfold spec.log2p1_compoundf_log2_inv in refl };

    ghost has_numbers = { unfold spec.log2p1_compoundf_log2_inv in refl };
}

static LOG2P1_COMPOUNDF_LOG2_INV: [(u64, u64); 46] = [
    (0x3c68_f367_3ffd_d785, 0xbfdf_7a85_68cb_06cf),
    (0x3c1c_141e_66fa_aaad, 0xbfdd_6753_e032_ea0f),
    (0x3c76_fae4_41c0_9d76, 0xbfdb_47eb_f738_82a1),
    (0x3c72_d352_bea5_1e59, 0xbfd9_1bba_891f_1709),
    (0xbc69_575b_04fa_6fbd, 0xbfd8_00a5_6316_1c54),
    (0x3c78_17fd_3b7d_7e5d, 0xbfd5_c01a_39fb_d688),
    (0x3c1b_6d40_900b_2502, 0xbfd4_9a78_4bcd_1b8b),
    (0x3c7f_6e91_ad16_ecff, 0xbfd2_4407_ab0e_073a),
    (0x3c6a_7b47_d2c3_52d9, 0xbfd1_1307_dad3_0b76),
    (0x3c5b_85a5_4d7e_e2fd, 0xbfcd_49ee_4c32_5970),
    (0x3c40_1ee1_343f_e7ca, 0xbfca_cf5e_2db4_ec94),
    (0x3c68_17fd_3b7d_7e5d, 0xbfc5_c01a_39fb_d688),
    (0xbc4f_51f2_c075_a74c, 0xbfc3_2ae9_e278_ae1a),
    (0x3c6a_7610_e40b_d6ab, 0xbfc0_8c58_8cda_79e4),
    (0xbc58_ecb1_69b9_465f, 0xbfbb_c842_40ad_abba),
    (0xbc5f_3314_e098_5116, 0xbfb6_63f6_fac9_1316),
    (0x3c53_0c22_d151_99b8, 0xbfb0_eb38_9fa2_9f9b),
    (0xbc38_9b03_784b_5be1, 0xbfa6_bad3_758e_fd87),
    (0x0000_0000_0000_0000, 0x0000_0000_0000_0000),
    (0x0000_0000_0000_0000, 0x0000_0000_0000_0000),
    (0x3c34_91f0_6c08_5bc2, 0x3fa1_84b8_e4c5_6af8),
    (0x3c01_5566_0710_eb2a, 0x3fad_6ebd_1f1f_ebfe),
    (0x3c2c_141e_66fa_aaad, 0x3fb4_c560_fe68_af88),
    (0x3c59_ced1_447e_30ad, 0x3fb7_d604_96cf_bb4c),
    (0x3c59_2ce9_636c_90a0, 0x3fbe_0b1a_e8f2_fd56),
    (0xbc56_96e2_866c_718e, 0x3fc2_2dad_c2ab_3497),
    (0xbc61_562d_61af_73f8, 0x3fc4_94f8_63b8_df35),
    (0xbc60_798d_1aa2_1694, 0x3fc7_0460_31c7_9f85),
    (0xbc6e_9573_4abd_2fcc, 0x3fc9_7c1c_b13c_7ec1),
    (0x3c2b_c0af_7b82_e7d7, 0x3fcb_fc67_a7ff_f4cc),
    (0xbc60_86fc_e864_a1f6, 0x3fce_857d_3d36_1368),
    (0xbc53_d56e_fe43_38fe, 0x3fd0_8bce_0d95_fa38),
    (0x3c7c_8d43_e017_579b, 0x3fd1_69c0_5363_f158),
    (0xbc50_132a_e5e4_17cd, 0x3fd2_baa0_c34b_e1ec),
    (0xbc7c_658d_602e_66b0, 0x3fd4_1060_17c3_eca3),
    (0x3c7e_393a_16b9_4b52, 0x3fd4_f6fb_b2ce_c598),
    (0x3c7a_c908_0333_c605, 0x3fd6_552b_4998_6277),
    (0x3c68_f89e_2eb5_53b2, 0x3fd7_b89f_02cf_2aad),
    (0x3c79_9aa6_df8b_7d83, 0x3fd8_a898_0abf_bd32),
    (0x3c7b_ca36_fd02_def0, 0x3fd9_9b07_2a96_c6b2),
    (0x3c58_17fd_3b7d_7e5d, 0x3fda_8ff9_7181_0a5e),
    (0xbc50_1d98_c353_1027, 0x3fdb_877c_57b1_b070),
    (0x3c78_a38b_4175_d665, 0x3fdc_ffae_611a_d12b),
    (0x3c43_8c89_4641_4c6a, 0x3fdd_fdd8_9d58_6e2b),
    (0x3c76_d261_f175_3e0b, 0x3fde_fec6_1b01_1f85),
    (0xbc87_398f_e685_f171, 0x3fe0_0143_32be_0033),
];

// COMPOUNDF_EXP2_T: entry i is (i - 16)/32.
pub struct CompoundfExp2T;

impl Table for CompoundfExp2T {
    ghost patterns = { spec.compoundf_exp2_t };

    ghost size = { 33 };

    #[tactic(auto, unfolding(crate::specs::Tables::compoundf_exp2_t))]
    fn patterns() -> &'static [u64] {
        &COMPOUNDF_EXP2_T
    }

    ghost has_size = { unfold spec.compoundf_exp2_t in refl };

    ghost has_numbers = { unfold spec.compoundf_exp2_t in refl };
}

static COMPOUNDF_EXP2_T: [u64; 33] = [
    0xbfe0_0000_0000_0000,
    0xbfde_0000_0000_0000,
    0xbfdc_0000_0000_0000,
    0xbfda_0000_0000_0000,
    0xbfd8_0000_0000_0000,
    0xbfd6_0000_0000_0000,
    0xbfd4_0000_0000_0000,
    0xbfd2_0000_0000_0000,
    0xbfd0_0000_0000_0000,
    0xbfcc_0000_0000_0000,
    0xbfc8_0000_0000_0000,
    0xbfc4_0000_0000_0000,
    0xbfc0_0000_0000_0000,
    0xbfb8_0000_0000_0000,
    0xbfb0_0000_0000_0000,
    0xbfa0_0000_0000_0000,
    0x0000_0000_0000_0000,
    0x3fa0_0000_0000_0000,
    0x3fb0_0000_0000_0000,
    0x3fb8_0000_0000_0000,
    0x3fc0_0000_0000_0000,
    0x3fc4_0000_0000_0000,
    0x3fc8_0000_0000_0000,
    0x3fcc_0000_0000_0000,
    0x3fd0_0000_0000_0000,
    0x3fd2_0000_0000_0000,
    0x3fd4_0000_0000_0000,
    0x3fd6_0000_0000_0000,
    0x3fd8_0000_0000_0000,
    0x3fda_0000_0000_0000,
    0x3fdc_0000_0000_0000,
    0x3fde_0000_0000_0000,
    0x3fe0_0000_0000_0000,
];

// COMPOUNDF_EXP2_U: entry i is near 2^((i - 16)/32).
pub struct CompoundfExp2U;

impl PairTable for CompoundfExp2U {
    ghost patterns = { spec.compoundf_exp2_u };

    ghost size = { 33 };

    #[tactic(auto, unfolding(crate::specs::Tables::compoundf_exp2_u))]
    fn patterns() -> &'static [(u64, u64)] {
        &COMPOUNDF_EXP2_U
    }

    ghost has_size = { unfold spec.compoundf_exp2_u in refl };

    ghost has_numbers = { unfold spec.compoundf_exp2_u in refl };
}

static COMPOUNDF_EXP2_U: [(u64, u64); 33] = [
    (0xbc8b_dd34_13b2_6456, 0x3fe6_a09e_667f_3bcd),
    (0xbc71_6e47_8688_7a99, 0x3fe7_1f75_e8ec_5f74),
    (0xbc74_1577_ee04_992f, 0x3fe7_a114_73eb_0187),
    (0xbc8d_4c1d_d415_32d8, 0x3fe8_2589_994c_ce13),
    (0x3c86_e9f1_5686_4b27, 0x3fe8_ace5_422a_a0db),
    (0xbc57_5fc7_81b5_7ebc, 0x3fe9_3737_b0cd_c5e5),
    (0x3c6c_7c46_b071_f2be, 0x3fe9_c491_82a3_f090),
    (0xbc8d_2f6e_db8d_41e1, 0x3fea_5503_b23e_255d),
    (0x3c87_a1cd_345d_cc81, 0x3fea_e89f_995a_d3ad),
    (0xbc65_584f_7e54_ac3b, 0x3feb_7f76_f2fb_5e47),
    (0x3c71_1065_8950_48dd, 0x3fec_199b_dd85_529c),
    (0x3c65_03cb_d1e9_49db, 0x3fec_b720_dcef_9069),
    (0x3c72_ed02_d75b_3707, 0x3fed_5818_dcfb_a487),
    (0xbc81_a5cd_4f18_4b5c, 0x3fed_fc97_337b_9b5f),
    (0xbc8e_9c23_179c_2893, 0x3fee_a4af_a2a4_90da),
    (0x3c89_d3e1_2dd8_a18b, 0x3fef_5076_5b6e_4540),
    (0x0000_0000_0000_0000, 0x3ff0_0000_0000_0000),
    (0x3c8d_73e2_a475_b465, 0x3ff0_59b0_d315_8574),
    (0x3c98_a62e_4adc_610b, 0x3ff0_b558_6cf9_890f),
    (0xbc96_c510_3944_9b3a, 0x3ff1_1301_d012_5b51),
    (0xbc81_9041_b9d7_8a76, 0x3ff1_72b8_3c7d_517b),
    (0x3c9e_016e_00a2_643c, 0x3ff1_d487_3168_b9aa),
    (0x3c99_b07e_b6c7_0573, 0x3ff2_387a_6e75_6238),
    (0x3c86_12e8_afad_1255, 0x3ff2_9e9d_f51f_dee1),
    (0x3c86_f46a_d231_82e4, 0x3ff3_06fe_0a31_b715),
    (0xbc96_3aea_bf42_eae2, 0x3ff3_71a7_373a_a9cb),
    (0x3c8a_da09_11f0_9ebc, 0x3ff3_dea6_4c12_3422),
    (0x3c48_9b7a_04ef_80d0, 0x3ff4_4e08_6061_892d),
    (0x3c7d_4397_afec_42e2, 0x3ff4_bfda_d536_2a27),
    (0xbc80_7abe_1db1_3cad, 0x3ff5_342b_569d_4f82),
    (0x3c96_324c_0546_47ad, 0x3ff5_ab07_dd48_5429),
    (0xbc93_83c1_7e40_b497, 0x3ff6_247e_b03a_5585),
    (0xbc9b_dd34_13b2_6456, 0x3ff6_a09e_667f_3bcd),
];

// LOG2P1_SCALE: entry i is 2^(29 - i).
pub struct Log2p1Scale;

impl Table for Log2p1Scale {
    ghost patterns = { spec.log2p1_scale };

    ghost size = { 158 };

    #[tactic(auto, unfolding(crate::specs::Tables::log2p1_scale))]
    fn patterns() -> &'static [u64] {
        &LOG2P1_SCALE
    }

    ghost has_size = { unfold spec.log2p1_scale in refl };

    ghost has_numbers = { unfold spec.log2p1_scale in refl };
}

static LOG2P1_SCALE: [u64; 158] = [
    0x41c0_0000_0000_0000,
    0x41b0_0000_0000_0000,
    0x41a0_0000_0000_0000,
    0x4190_0000_0000_0000,
    0x4180_0000_0000_0000,
    0x4170_0000_0000_0000,
    0x4160_0000_0000_0000,
    0x4150_0000_0000_0000,
    0x4140_0000_0000_0000,
    0x4130_0000_0000_0000,
    0x4120_0000_0000_0000,
    0x4110_0000_0000_0000,
    0x4100_0000_0000_0000,
    0x40f0_0000_0000_0000,
    0x40e0_0000_0000_0000,
    0x40d0_0000_0000_0000,
    0x40c0_0000_0000_0000,
    0x40b0_0000_0000_0000,
    0x40a0_0000_0000_0000,
    0x4090_0000_0000_0000,
    0x4080_0000_0000_0000,
    0x4070_0000_0000_0000,
    0x4060_0000_0000_0000,
    0x4050_0000_0000_0000,
    0x4040_0000_0000_0000,
    0x4030_0000_0000_0000,
    0x4020_0000_0000_0000,
    0x4010_0000_0000_0000,
    0x4000_0000_0000_0000,
    0x3ff0_0000_0000_0000,
    0x3fe0_0000_0000_0000,
    0x3fd0_0000_0000_0000,
    0x3fc0_0000_0000_0000,
    0x3fb0_0000_0000_0000,
    0x3fa0_0000_0000_0000,
    0x3f90_0000_0000_0000,
    0x3f80_0000_0000_0000,
    0x3f70_0000_0000_0000,
    0x3f60_0000_0000_0000,
    0x3f50_0000_0000_0000,
    0x3f40_0000_0000_0000,
    0x3f30_0000_0000_0000,
    0x3f20_0000_0000_0000,
    0x3f10_0000_0000_0000,
    0x3f00_0000_0000_0000,
    0x3ef0_0000_0000_0000,
    0x3ee0_0000_0000_0000,
    0x3ed0_0000_0000_0000,
    0x3ec0_0000_0000_0000,
    0x3eb0_0000_0000_0000,
    0x3ea0_0000_0000_0000,
    0x3e90_0000_0000_0000,
    0x3e80_0000_0000_0000,
    0x3e70_0000_0000_0000,
    0x3e60_0000_0000_0000,
    0x3e50_0000_0000_0000,
    0x3e40_0000_0000_0000,
    0x3e30_0000_0000_0000,
    0x3e20_0000_0000_0000,
    0x3e10_0000_0000_0000,
    0x3e00_0000_0000_0000,
    0x3df0_0000_0000_0000,
    0x3de0_0000_0000_0000,
    0x3dd0_0000_0000_0000,
    0x3dc0_0000_0000_0000,
    0x3db0_0000_0000_0000,
    0x3da0_0000_0000_0000,
    0x3d90_0000_0000_0000,
    0x3d80_0000_0000_0000,
    0x3d70_0000_0000_0000,
    0x3d60_0000_0000_0000,
    0x3d50_0000_0000_0000,
    0x3d40_0000_0000_0000,
    0x3d30_0000_0000_0000,
    0x3d20_0000_0000_0000,
    0x3d10_0000_0000_0000,
    0x3d00_0000_0000_0000,
    0x3cf0_0000_0000_0000,
    0x3ce0_0000_0000_0000,
    0x3cd0_0000_0000_0000,
    0x3cc0_0000_0000_0000,
    0x3cb0_0000_0000_0000,
    0x3ca0_0000_0000_0000,
    0x3c90_0000_0000_0000,
    0x3c80_0000_0000_0000,
    0x3c70_0000_0000_0000,
    0x3c60_0000_0000_0000,
    0x3c50_0000_0000_0000,
    0x3c40_0000_0000_0000,
    0x3c30_0000_0000_0000,
    0x3c20_0000_0000_0000,
    0x3c10_0000_0000_0000,
    0x3c00_0000_0000_0000,
    0x3bf0_0000_0000_0000,
    0x3be0_0000_0000_0000,
    0x3bd0_0000_0000_0000,
    0x3bc0_0000_0000_0000,
    0x3bb0_0000_0000_0000,
    0x3ba0_0000_0000_0000,
    0x3b90_0000_0000_0000,
    0x3b80_0000_0000_0000,
    0x3b70_0000_0000_0000,
    0x3b60_0000_0000_0000,
    0x3b50_0000_0000_0000,
    0x3b40_0000_0000_0000,
    0x3b30_0000_0000_0000,
    0x3b20_0000_0000_0000,
    0x3b10_0000_0000_0000,
    0x3b00_0000_0000_0000,
    0x3af0_0000_0000_0000,
    0x3ae0_0000_0000_0000,
    0x3ad0_0000_0000_0000,
    0x3ac0_0000_0000_0000,
    0x3ab0_0000_0000_0000,
    0x3aa0_0000_0000_0000,
    0x3a90_0000_0000_0000,
    0x3a80_0000_0000_0000,
    0x3a70_0000_0000_0000,
    0x3a60_0000_0000_0000,
    0x3a50_0000_0000_0000,
    0x3a40_0000_0000_0000,
    0x3a30_0000_0000_0000,
    0x3a20_0000_0000_0000,
    0x3a10_0000_0000_0000,
    0x3a00_0000_0000_0000,
    0x39f0_0000_0000_0000,
    0x39e0_0000_0000_0000,
    0x39d0_0000_0000_0000,
    0x39c0_0000_0000_0000,
    0x39b0_0000_0000_0000,
    0x39a0_0000_0000_0000,
    0x3990_0000_0000_0000,
    0x3980_0000_0000_0000,
    0x3970_0000_0000_0000,
    0x3960_0000_0000_0000,
    0x3950_0000_0000_0000,
    0x3940_0000_0000_0000,
    0x3930_0000_0000_0000,
    0x3920_0000_0000_0000,
    0x3910_0000_0000_0000,
    0x3900_0000_0000_0000,
    0x38f0_0000_0000_0000,
    0x38e0_0000_0000_0000,
    0x38d0_0000_0000_0000,
    0x38c0_0000_0000_0000,
    0x38b0_0000_0000_0000,
    0x38a0_0000_0000_0000,
    0x3890_0000_0000_0000,
    0x3880_0000_0000_0000,
    0x3870_0000_0000_0000,
    0x3860_0000_0000_0000,
    0x3850_0000_0000_0000,
    0x3840_0000_0000_0000,
    0x3830_0000_0000_0000,
    0x3820_0000_0000_0000,
    0x3810_0000_0000_0000,
    0x3800_0000_0000_0000,
    0x37f0_0000_0000_0000,
];

// P of `log2p1_polyeval_1`: entry i is the coefficient of degree i.
pub struct PolyP;

impl Table for PolyP {
    ghost patterns = { spec.log2p1_poly_p };

    ghost size = { 8 };

    #[tactic(auto, unfolding(crate::specs::Tables::log2p1_poly_p))]
    fn patterns() -> &'static [u64] {
        &POLY_P
    }

    ghost has_size = { unfold spec.log2p1_poly_p in refl };

    ghost has_numbers = { unfold spec.log2p1_poly_p in refl };
}

static POLY_P: [u64; 8] = [
    0x0000_0000_0000_0000,
    0x3ff7_1547_652b_82fe,
    0xbfe7_1547_652b_8d11,
    0x3fde_c709_dc3a_5014,
    0xbfd7_1547_5b14_4983,
    0x3fd2_776c_3fda_300e,
    0xbfce_c990_1623_58ce,
    0x3fca_6453_37c2_9e27,
];

// Q of `compoundf_expf_poly`: entry i is the coefficient of degree i.
pub struct PolyQ;

impl Table for PolyQ {
    ghost patterns = { spec.expf_poly_q };

    ghost size = { 5 };

    #[tactic(auto, unfolding(crate::specs::Tables::expf_poly_q))]
    fn patterns() -> &'static [u64] {
        &POLY_Q
    }

    ghost has_size = { unfold spec.expf_poly_q in refl };

    ghost has_numbers = { unfold spec.expf_poly_q in refl };
}

static POLY_Q: [u64; 5] = [
    0x3ff0_0000_0000_0000,
    0x3fe6_2e42_fef6_d01a,
    0x3fce_bfbd_ff7f_eeba,
    0x3fac_6b16_7e57_9bee,
    0x3f83_b2b3_428d_06de,
];

// LOG2P1_LOG2_POLY: degrees 1 to 5 in two parts each, then degrees 6 to 13.
pub struct Log2p1Log2Poly;

impl Table for Log2p1Log2Poly {
    ghost patterns = { spec.log2p1_log2_poly };

    ghost size = { 18 };

    #[tactic(auto, unfolding(crate::specs::Tables::log2p1_log2_poly))]
    fn patterns() -> &'static [u64] {
        &LOG2P1_LOG2_POLY
    }

    ghost has_size = { unfold spec.log2p1_log2_poly in refl };

    ghost has_numbers = { unfold spec.log2p1_log2_poly in refl };
}

static LOG2P1_LOG2_POLY: [u64; 18] = [
    0x3ff7_1547_652b_82fe,
    0x3c77_77d0_ffda_0d80,
    0xbfe7_1547_652b_82fe,
    0xbc67_77d0_fd20_b49c,
    0x3fde_c709_dc3a_03fd,
    0x3c7d_27f0_5171_b74a,
    0xbfd7_1547_652b_82fe,
    0xbc57_814e_70b8_28b0,
    0x3fd2_776c_50ef_9bfe,
    0x3c7e_4f63_e12b_ff83,
    0xbfce_c709_dc3a_03f4,
    0x3fca_6176_2a7a_decc,
    0xbfc7_1547_652d_8849,
    0x3fc4_84b1_3d7e_7029,
    0xbfc2_776c_1b2a_40fd,
    0x3fc0_c9a8_0f9b_7c1c,
    0xbfbe_cc68_0112_1200,
    0x3fbc_6e4b_91fd_10e5,
];

// Q2 of `compoundf_exp2_poly2`: degree 0, degrees 1 to 3 in two parts each, then 4 to 8.
pub struct PolyQ2;

impl Table for PolyQ2 {
    ghost patterns = { spec.exp2_poly_q2 };

    ghost size = { 12 };

    #[tactic(auto, unfolding(crate::specs::Tables::exp2_poly_q2))]
    fn patterns() -> &'static [u64] {
        &POLY_Q2
    }

    ghost has_size = { unfold spec.exp2_poly_q2 in refl };

    ghost has_numbers = { unfold spec.exp2_poly_q2 in refl };
}

static POLY_Q2: [u64; 12] = [
    0x3ff0_0000_0000_0000,
    0x3fe6_2e42_fefa_39ef,
    0x3c7a_bc9d_4553_4d06,
    0x3fce_bfbd_ff82_c58f,
    0xbc65_e438_3cf9_ddf7,
    0x3fac_6b08_d704_a0c0,
    0xbc46_cbc5_5586_c8f1,
    0x3f83_b2ab_6fba_4e77,
    0x3f55_d87f_e789_aec5,
    0x3f24_3091_2f87_9daa,
    0x3eef_fcc7_74b2_367a,
    0x3eb6_2c01_7b9b_dfe6,
];

// The rules of LOG2P1_SCALE and COMPOUNDF_EXP2_T, at every entry. There is nothing to run: the
// contract is the theorem.
pub fn table_rules()
    ensures { Rules }
{}
