//! A session over a bucket with more keys than a page has.
use crate::scripts::{printed, text_of};
use mvd_input::Fault;
use std::alloc::{AllocError, Global};
use std::test::Fail;

/// Keys whose SHA-256 begins with the digits `abc`, twenty in a line.
const KEYS: &[&str] = &[
    "00Yo 029E 03FT 04ZE 06Uz 09V5 0ARQ 0BKj 0Bdd 0Bzr 0En3 0G0Z 0GLd 0HfP 0IQE 0J6i 0JAE 0LpL 0Lsf 0Mas",
    "0Mqr 0NDI 0P8k 0Pod 0RGY 0RTe 0RVd 0RZI 0RzH 0Tc2 0Tsp 0UF3 0W8D 0X5F 0Xp2 0Y36 0Yk2 0ZtA 0al6 0bMu",
    "0bNI 0biY 0cVP 0dpA 0eXA 0em1 0feC 0fuB 0g3P 0ibX 0j4H 0jP0 0kQv 0l9K 0osY 0qnW 0rlN 0sLh 0srM 0t5B",
    "0tdV 0tts 0u5s 0vzr 0x3r 0xJC 101z 10LG 10rM 114L 12OL 144Q 14WW 16Bk 16tj 177V 18kc 1AfJ 1BQ2 1BVH",
    "1CEg 1E4s 1E6Q 1EdY 1Ee2 1FsM 1HCq 1HSu 1J9A 1Kjd 1MTc 1MuX 1P0n 1R20 1SXk 1Tot 1VJB 1VUQ 1Wex 1YiW",
    "1a7s 1aeS 1b7V 1cFS 1cHT 1djF 1kn1 1kou 1luK 1m0H 1mDn 1mdC 1mfh 1nN6 1ndw 1ocJ 1odd 1oeV 1ooh 1p47",
    "1pxx 1qLe 1r01 1zbR 22bB 23SB 23wC 25Vj 26SD 26qk 27GO 27Wt 27cP 281M 283x 2867 2Bxp 2CXk 2CtA 2EJz",
    "2H5t 2HAm 2IWH 2Iax 2JRm 2JWf 2KeT 2LEF 2LEO 2OAi 2QUT 2Qo6 2RNg 2RtK 2T0t 2WSK 2Xf5 2bvU 2cqc 2eBy",
    "2euM 2ey8 2fz1 2guf 2hMb 2jlX 2kL0 2kXT 2nks 2oFd 2oLn 2pCq 2pZB 2qiZ 2rWk 2rdV 2szw 2w7w 2wuI 2xYl",
    "30RN 32Dt 32h1 33Gw 34NV 35g2 36Y1 36pI 380r 38zL 39QI 3Cf1 3Cs1 3G5P 3Gwa 3HAX 3JeA 3JpY 3Kh9 3LTv",
    "3Lvm 3MKK 3OxM 3Qam 3RwG 3S8P 3SV2 3Si5 3VQH 3XWu 3XZi 3ZWi 3Zqn 3Ztu 3a8z 3aig 3bNA 3bOj 3bxg 3cp3",
    "3drz 3f0o 3f6B 3fJv 3h8f 3hZo 3iT0 3jMm 3joY 3lMo 3le2 3lrV 3p6D 3p9g 3q16 3r0R 3rwT 3vqT 3wEU 3yR3",
    "3zcD 41PR 42eJ 42kk 48dL 49aE 4AL9 4CE8 4CK7 4Fo8 4GGz 4IM6 4Ids 4JSl 4Jdw 4Jjr 4L46 4NyF 4O1r 4O35",
    "4Otz 4P7q 4QXm 4REE 4RKz 4Rs3 4UEB 4UtF 4VuU 4WIq 4Wew 4XEg 4XSd 4XWK 4Y45 4YqO 4ZCO 4ZhL 4clg 4dgc",
    "4erO 4fSc 4grC 4mHQ 4nwW 4okR 4pg9 4qwP 4rKc 4rbV 4sF1 4wZd 4y9N 4yM5 4zug 52Si 52VP 53Io 53eT 55FK",
    "55P9 590O 59v4 5ATJ 5Bbv 5Di4 5Dow 5Gud 5HI1 5Hhp 5I2W 5J9h 5MTj 5Mco 5MzX 5NML 5NZy 5O1h 5PXk 5QBR",
    "5Rh7 5Rux 5SmQ 5Wvr 5Xxp 5amo 5cic 5dOa 5dZq 5e48 5eVR 5fYC 5gKq 5gfj 5gs0 5hGL 5jTw 5lPM 5mrY 5nyq",
    "5pWz 5rL4 5sjI 5uLo 5vak 5wGX 5ywS 60fg 60z5 61DQ 61Ia 61QO 63pa 63sY 645h 66AT 68N2 68q8 693q 69dv",
    "6AXJ 6CKz 6CSW 6DoJ 6Dxh 6E19 6GBR 6HAC 6IPm 6Ibg 6K2H 6L6s 6MxS 6NdP 6No9 6PbM 6QFc 6QK4 6QWH 6Rf7",
    "6TYK 6WEc 6WMo 6YdD 6axB 6b04 6eKI 6h9g 6huh 6jE2 6kJH 6kK6 6mzs 6oIr 6oTe 6p2q 6qX2 6rCb 6v0f 6vel",
    "6wdc 6xGA 6y7t 6yPB 6yS2 70gG 72gO 72vP 73GL 73N4 73dO 74Zc 74iE 75or 75ua 76l4 76pr 79tt 79y7 7BdT",
    "7EKA 7EoC 7EtT 7FR2 7GzW 7Hic 7IVE 7J9L 7LiI 7MSh 7Mby 7MjY 7Mju 7ObL 7S0N 7SHO 7TK1 7TOZ 7Tcz 7TjF",
    "7Tur 7V6j 7XNT 7ZTG 7ZTf 7aVJ 7bc5 7cwT 7fBt 7g33 7gn6 7h4N 7hMG 7hqQ 7jbu 7kGX 7lRa 7ocf 7ohS 7oqf",
    "7p8z 7pak 7pgW 7rJq 7rmm 7s0D 7s7T 7sE3 7u44 7uuO 7uw9 7vIB 7wUG 7xJK 7yem 7zNB 82Zf 82gM 837y 83Pk",
    "83bA 8578 86LZ 87H8 87WG 87cy 897J 8A7m 8Arw 8BRK 8BZL 8BqI 8CPX 8CnM 8D1k 8HLp 8J2Y 8J4A 8K1N 8KB9",
    "8KHh 8LFs 8MGw 8MmG 8NHw 8NkE 8Q1I 8QaM 8QzQ 8R8Y 8T3A 8UBW 8UcD 8UpQ 8V2s 8Xnx 8YEw 8YUN 8ZTA 8b0p",
    "8byh 8ejH 8fTy 8gtr 8gv7 8jdG 8jvm 8kLi 8lvA 8mdQ 8mfT 8nI7 8pUT 8pfw 8q7y 8qPG 8rEX 8rW4 8rgy 8tt8",
    "8wbT 8wvh 8wxU 8xVO 8y3Z 8yAG 8yKP 94D7 95lv 97Iw 97KV 97MF 9920 995P 9ACf 9B9H 9C9x 9CH8 9CQV 9Dcx",
    "9HTX 9Iwm 9LIo 9Ld5 9NmH 9NzC 9Oky 9PA1 9S7k 9Sxy 9Uhh 9Vm2 9WIn 9WUt 9WZ5 9Z5A 9a8Y 9alA 9bci 9c9O",
    "9cM3 9cqO 9dYF 9dty 9goZ 9kCF 9l5E 9nhH 9nlc 9npH 9nvh 9nyU 9oAA 9oqk 9oqu 9q6e 9qBz 9rGp 9uwq 9vFf",
    "9viY 9wvJ 9xrQ 9y3d 9yZ6 9zCY 9zFW 9zln A0eu A1DH A1Ei A4PT A6eZ A9b5 A9ol AA5q AAmf ABZw ADkO AEJV",
    "AETw AFbv AIJC AIWS AIyP AJjv AKaL AKbQ AKbv ALJk ANoX APJN APRI APhf ARfx ATkf ATr4 AUSg AUt6 AVEb",
    "AY85 AYeR AZIU AZcF AZnJ AaIL Ab14 Afaw Ah5m Aitq AjHx Akly Alh3 AmOp Anve AoKe AoPq Ap76 AqrW AsLK",
    "Auhn AvNh Avsy Aw44 AxEJ AxPZ AxYt Axou AyxD B13n B3Hi B3iu B5Sv B5xd B99e B9Pz BAWO BBJY BCIN BFWj",
    "BHiW BHiq BIDx BIWE BJ4S BNfh BO7p BObx BR88 BUxN BVXB BWCE BWsi BXaB BYrY BdJY Be2q Biyp Bjca Bk0M",
    "BkvE Blrj BnpW BpXD BrqP Bv5b BwEa BwP3 Bwtu Bz8b BzUb BzcH BzsH C1VP C1WP C2w6 C3XV C3c3 C4l6 C59v",
    "C81E C84c C8Pt CA6n CAPw CBoB CC2p CCnA CEU8 CHLx CIY5 CIdk CJG2 CJXs CJwK CKJq CMmY COPn CPVw CPeJ",
    "CRE4 CRE5 CRif CSD3 CSMn CTOb CV1N CWIR CX00 CYlR CZq5 Cb6g Cd7l CdfY CeLF CeWb Cfdt Cgcl ClAy ClKh",
    "Cmxr Copz CrQh CvKH Cw5W Cybk D0Z7 D3ii D69B D6Em D6V6 D6ir D7Re D8hi D8rh DA1i DBHz DBLq DDJC DDdU",
    "DE0j DEOr DGRF DGjY DH8v DIYH DIav DJBX DK4q DKfU DM6R DNOa DONX DOu9 DQeA DSgU DT0H DTEU DTGu DUNv",
    "DVWm DWhF DaU6 DbVb Dbs0 DcR0 DdqX DeeG DgrA Dhd6 Dij2 Dltf DmZt DmeN Do1r DoLd Dobb Doz3 DqWB DqXA",
    "DqlZ DrFj DrbI Dt3Q DzNg DzO0 E0T0 E0X9 E3ic E3xH E4vh EBay EBfa EBuS ECbK ED5p EDY6 EFBa EI8p EIwC",
    "EMA4 EP2l EQ0v ER46 ERl1 ERpa ESLZ ETYC ETwo EU3h EURV EWr9 EXD1 EYvg EaLx EbqY EcVI Edk0 Ejau Ejfy",
    "ElJu EmZQ EpEP EpgU Epni EqGq EuHf Ev8S EvTL EwWf EzBF Ezhg EzvD F13N F13d F1fJ F2JT F4AK F4TW F6C8",
    "F6Qw F6T1 F6dn F7IA F9pc FAjV FBVs FBXC FCxY FDjs FDxY FGof FIS4 FIgl FMFa FP7n FQP5 FRqb FSij FTq0",
    "FURv FUzu FVnG FX1E FXfC FYK7 FYXx FYd9 FZdj FaKm Faz0 FczG Fe05 Fe39 FiAJ Fj7S FkiQ FmB3 Fp9V FpiF",
    "FsH5 Fvss FwGF G02v G0zM G3wq G4nU G7pr G9Zz G9zl GCRz GDLq GDuL GEcf GFMz GHUn GHae GIQL GJ0a GJTh",
    "GJZw GK9l GLQI GLsp GMvN GN9L GOFs GQSm GQbL GQm9 GRNi GROo GSvo GU1b GULV GUQK GV6K GVUG GVWw GWe0",
    "GYCh GYVp GYZw GZ25 GaEc GakF GbgD GcLW GdwI Gf5H GhlE Gj7M Gj8d Gk4O GmaR Gmq5 Gmt7 Gne7 Go9s Gs1u",
    "GsJY GstY GuG7 GwSo GyDg H12O H1DG H1V3 H1xp H2g9 H2xD H31j H3DS H3Mn H3Vi H4o6 H677 H7lm H8vp H90B",
    "H9sV HAjT HApQ HAtR HEFB HEIX HFrT HHal HJ4o HJBa HJRc HKr7 HKxZ HLZU HNKd HNyR HQHk HRAR HTQF HUe7",
    "HVFl HViz HW4N HX2K HYMB HZVq Hbj1 Hc6C HcZH HdZy HdvJ Hf00 Hfwe HgaR Hgqq HgyW Hj3O HjCp HjUQ HmW6",
    "Hmeh HnCC HnKg HoI3 Hp7H HpSK Hpln HrLv Hs6C HsJc HspQ Hw9n HwQT HwSK HxOP Hzzh I046 I17h I1tk I4oM",
];

/// The keys that both sites have before they part: in every fourth line not the first two.
fn push_shared(text: &mut String, keys: &str, is_fourth: bool) -> Result<(), AllocError> {
    for (at, key) in keys.split_whitespace().enumerate() {
        if !is_fourth || at > 1 {
            writeln!(text, "put 1 {key} - {{}}")?;
        }
    }
    Ok(())
}

/// What the two sites do to a key while apart: it is written on one side alone, deleted, written on both, or deleted
/// on one and written blindly on the other.
fn push_change(text: &mut String, at: usize, key: &str) -> Result<(), AllocError> {
    match at {
        0 => writeln!(text, "put 1 {key} - {{}}"),
        1 => writeln!(text, "put 2 {key} - {{}}"),
        2 => writeln!(text, "del 1 {key} @"),
        3 => writeln!(text, "put 1 {key} @ {{}}\nput 2 {key} @ {{}}"),
        4 => writeln!(text, "del 1 {key} @\nput 2 {key} - {{}}"),
        _ => Ok(()),
    }
}

fn push_changes(text: &mut String, keys: &str) -> Result<(), AllocError> {
    for (at, key) in keys.split_whitespace().enumerate() {
        push_change(text, at, key)?;
    }
    Ok(())
}

/// Two sites that are alike, then part, and meet again.
fn push_script(text: &mut String) -> Result<(), AllocError> {
    text.push_str("sites 2\n")?;
    for (line, keys) in KEYS.iter().enumerate() {
        push_shared(text, keys, line % 4 == 0)?;
    }
    text.push_str("sync 1 2\n")?;
    for (line, keys) in KEYS.iter().enumerate() {
        if line % 4 == 0 {
            push_changes(text, keys)?;
        }
    }
    text.push_str("sync 1 2\nroot 1\nroot 2\nsync 2 1\n")
}

fn script(alloc: Global) -> Result<String, AllocError> {
    let mut text = String::new(alloc);
    push_script(&mut text)?;
    Ok(text)
}

/// Whether the last session had no key left, the one before just those that differed, and the roots are one.
fn ends_well(out: &str) -> bool {
    let mut last = out.lines().rev();
    let four = (last.next(), last.next(), last.next(), last.next());
    matches!(four, (Some("keys 0"), Some(a), Some(b), Some("keys 70")) if a == b)
}

/// Whether a script ends so.
fn is_well(alloc: Global, script: &str) -> Result<bool, Fault> {
    let out = printed(alloc, script)?;
    Ok(ends_well(text_of(&out)))
}

fn meets(alloc: Global) -> Result<bool, Fault> {
    let script = script(alloc)?;
    is_well(alloc, script.as_str())
}

#[test]
fn a_bucket_of_several_pages(rt: HostRuntime) -> Result<(), Fail> {
    assert!(rt; meets(rt.alloc())?);
    Ok(())
}
