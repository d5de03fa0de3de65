// The class of a record, indexed by its number of fields: a byte, widened where it is read. The 4,096 entries stand in 32 rows of 128,
// so the one for f fields is `CLASSES[f / 128][f % 128]`. Beside each class's last entry of the first row stands the number of fields
// that it is for, and beside every other row, all of one class, the first and the last.
pub const CLASSES: [[u8; 128]; 32] = [
    [
        3, 3, // 1 field
        4, 4, // 3 fields
        5, 5, 5, 5, // 7 fields
        6, 6, 6, 6, 6, 6, 6, 6, // 15 fields
        7, 7, 7, 7, 7, 7, 7, 7, 7, 7, 7, 7, 7, 7, 7, 7, // 31 fields
        8, 8, 8, 8, 8, 8, 8, 8, 8, 8, 8, 8, 8, 8, 8, 8, 8, 8, 8, 8, 8, 8, 8, 8, 8, 8, 8, 8, 8, 8,
        8, 8, // 63 fields
        9, 9, 9, 9, 9, 9, 9, 9, 9, 9, 9, 9, 9, 9, 9, 9, 9, 9, 9, 9, 9, 9, 9, 9, 9, 9, 9, 9, 9, 9,
        9, 9, 9, 9, 9, 9, 9, 9, 9, 9, 9, 9, 9, 9, 9, 9, 9, 9, 9, 9, 9, 9, 9, 9, 9, 9, 9, 9, 9, 9,
        9, 9, 9, 9, // 127 fields
    ],
    [10; 128], // 128 to 255 fields
    [11; 128], // 256 to 383 fields
    [11; 128], // 384 to 511 fields
    [12; 128], // 512 to 639 fields
    [12; 128], // 640 to 767 fields
    [12; 128], // 768 to 895 fields
    [12; 128], // 896 to 1,023 fields
    [13; 128], // 1,024 to 1,151 fields
    [13; 128], // 1,152 to 1,279 fields
    [13; 128], // 1,280 to 1,407 fields
    [13; 128], // 1,408 to 1,535 fields
    [13; 128], // 1,536 to 1,663 fields
    [13; 128], // 1,664 to 1,791 fields
    [13; 128], // 1,792 to 1,919 fields
    [13; 128], // 1,920 to 2,047 fields
    [14; 128], // 2,048 to 2,175 fields
    [14; 128], // 2,176 to 2,303 fields
    [14; 128], // 2,304 to 2,431 fields
    [14; 128], // 2,432 to 2,559 fields
    [14; 128], // 2,560 to 2,687 fields
    [14; 128], // 2,688 to 2,815 fields
    [14; 128], // 2,816 to 2,943 fields
    [14; 128], // 2,944 to 3,071 fields
    [14; 128], // 3,072 to 3,199 fields
    [14; 128], // 3,200 to 3,327 fields
    [14; 128], // 3,328 to 3,455 fields
    [14; 128], // 3,456 to 3,583 fields
    [14; 128], // 3,584 to 3,711 fields
    [14; 128], // 3,712 to 3,839 fields
    [14; 128], // 3,840 to 3,967 fields
    [14; 128], // 3,968 to 4,095 fields
];
